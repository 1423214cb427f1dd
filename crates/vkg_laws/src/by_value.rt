ghost use Rattle.vkg_laws.specs.ByValue.{OrderIsByValue};

/// A law, which does nothing: dates, moments, times of day and octets are ordered by their values. `order` compares lexical forms.
pub fn order_is_by_value()
    ensures { OrderIsByValue }
{}
