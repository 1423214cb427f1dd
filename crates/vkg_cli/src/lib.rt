//! The top call of the program.
//!
//! It reads the words of the command line, loads files in the order of the command, writes the text of the command, or tells
//! the first fault in one line of the standard error. `dump` writes the dataset of an R2RML mapping or of the direct mapping
//! (W3C Recommendations of 2012) as RDF 1.1 N-Quads; `query` writes the answer to a SPARQL 1.1 query (2013) over that very
//! dataset, in the form of SPARQL 1.1 Query Results CSV and TSV Formats, 4; `sql` writes the text of the query's plan over the
//! tables; `gen` writes the report on a generated company, and asks for no file. Each file has at most 2147483647 bytes.
//!
//! It promises (`vkg`): done, the output took the defined text (`specs/Headline`); each status of a fault comes exactly where
//! the first fault has it, but for counted faults of the store and want of memory; where no fault stands the text is written; the
//! output is as it was after all statuses but Done and WriteFault; files are asked for in order.
//!
//! Stands on every other library of the repository, through their public contracts, and on `clap` for the words.
#![tactic(auto)]

mod command_line;
mod company;
mod database;
mod dump;
mod fault_line;
mod load;
mod mapping;
mod query;
mod scan;
mod sql;
mod stops;
mod top;
mod words;
mod work;

pub use stops::{Fault, Stop, Usage};
pub use top::{give_up, refuse, vkg};
pub use vkg_rewrite::{result_lines, rewrite};
pub use words::{Command, DumpOptions, QueryOptions, Request, SqlOptions, read_request};
