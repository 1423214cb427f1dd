ghost use Rattle.std.specs.Prelude.{◌≡◌};
ghost use Rattle.vkg_term_maps.specs.Checks.{check_of};
ghost use Rattle.vkg_term_maps.specs.declared.error.TermMapError.TheVariants.{Memory as OutOfMemory};

use thiserror::Error;
use vkg_base::Memory;

/// What is wrong with a term map, in the order of the checks.
#[derive(Clone, Copy, Debug, Drop, PartialEq, Eq, Error)]
pub enum TermMapFault {
    /// Not exactly one of rr:constant, rr:column and rr:template, or one of the wrong sort (R2RML, 7).
    #[error("not one constant, column or template")]
    Kind,
    /// A column is no name of the table (R2RML, 7.2 and 7.3).
    #[error("unknown column")]
    UnknownColumn,
    /// The template's braces, its escapes or a name in it are bad (R2RML, 7.3).
    #[error("bad template")]
    BadTemplate,
    /// A column's value could make the scheme of the template's IRIs: a limit of this project.
    #[error("a value could make the scheme of the template")]
    DoubtfulTemplate,
    /// More than one term type, or one that is not allowed there (R2RML, 7.4).
    #[error("term type not allowed")]
    TermType,
    /// More than one language tag and datatype, a bad one, or one on what is no literal (R2RML, 7.5 and 7.6).
    #[error("language or datatype not allowed")]
    Annotation,
    /// A constant number of more than 38 digits: a limit of this project.
    #[error("number of more than 38 digits")]
    WideNumber,
}

impl TermMapFault {
    /// The number of the check that fails: 11 of `M11` to 16 of `M16`, or 22 of `M22`.
    pub fn check(self) -> u8
        ensures { result ≡ check_of self }
    {
        match self {
            TermMapFault::Kind => 11,
            TermMapFault::UnknownColumn => 12,
            TermMapFault::BadTemplate => 13,
            TermMapFault::DoubtfulTemplate => 14,
            TermMapFault::TermType => 15,
            TermMapFault::Annotation => 16,
            TermMapFault::WideNumber => 22,
        }
    }
}

/// Why a term map was not read.
#[derive(Clone, Copy, Debug, Drop, PartialEq, Eq, Error)]
pub enum TermMapError {
    #[error(transparent)]
    Fault(TermMapFault),
    #[error("want of memory")]
    Memory,
}

impl From<Memory> for TermMapError {
    ghost from_gives = { λ _ e. e ≡ OutOfMemory };

    fn from(_: Memory) -> TermMapError {
        TermMapError::Memory
    }
}
