//! The generated company: a database of any number of employees, for measurements and for trying queries.
//!
//! It is an example of this project and follows no standard; its schema is a text of SQL-92, 11.3 to 11.8. `generate` gives
//! exactly the rows that `specs/Company.antt` defines, and they meet the schema. `count_of` reads the number from a word.
//!
//! It stands on vkg_schema and vkg_tables, and on itoa for the decimal digits of a number.
#![tactic(auto)]

mod count;
mod generating;
mod rows;
mod schema;

pub use count::count_of;
pub use generating::generate;
pub use schema::company_schema;
