ghost use Rattle.std.specs.Prelude.{◌≡◌, IfOk, if◌then◌else◌};
ghost use Rattle.std.specs.Str.{bytes_eq};
ghost use Rattle.vkg_cells.specs.Form.{natural as natural_of};
ghost use Rattle.vkg_terms.specs.Vocabulary.{xsd_string};

use crate::cell::SqlType;
use std::alloc::Global;
use vkg_base::{Memory, Text};
use vkg_terms::Annotation;

/// The natural datatype of a kind (R2RML, 10.2).
pub fn natural(alloc: Global, kind: SqlType) -> Result<Annotation, Memory>
    ensures { IfOk result (λ a. a ≡ natural_of kind) }
{
    match kind {
        SqlType::Text => Ok(Annotation::Plain),
        SqlType::Term => Ok(Annotation::Plain),
        SqlType::Int => typed(alloc, "http://www.w3.org/2001/XMLSchema#integer"),
        SqlType::Dec => typed(alloc, "http://www.w3.org/2001/XMLSchema#decimal"),
        SqlType::Bool => typed(alloc, "http://www.w3.org/2001/XMLSchema#boolean"),
        SqlType::Date => typed(alloc, "http://www.w3.org/2001/XMLSchema#date"),
        SqlType::Stamp => typed(alloc, "http://www.w3.org/2001/XMLSchema#dateTime"),
        SqlType::Bin => typed(alloc, "http://www.w3.org/2001/XMLSchema#hexBinary"),
        SqlType::Time => typed(alloc, "http://www.w3.org/2001/XMLSchema#time"),
    }
}

fn typed(alloc: Global, iri: &str) -> Result<Annotation, Memory>
    ensures { IfOk result (λ a. a ≡ (if bytes_eq iri.now xsd_string then Annotation.Plain else Annotation.Typed iri.now)) }
{
    Ok(Annotation::typed(Text::new(alloc, iri)?))
}
