//! Laws of the texts. The functions compute nothing; what they ensure are the laws.
ghost use Rattle.vkg_sqltext.specs.Laws.{HaveOwnOrders, HaveOwnTexts};

/// No two well-typed plans over one schema share a text.
pub fn texts_are_apart()
    ensures { HaveOwnTexts }
{}

/// No two such plans with their orders share one.
pub fn orders_are_apart()
    ensures { HaveOwnOrders }
{}
