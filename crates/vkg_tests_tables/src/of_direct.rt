use std::alloc::Global;
use std::test::Fail;
use vkg_direct::{DirectError, direct};
use vkg_maps::Mapping;
use vkg_schema::read_schema;
use vkg_terms::is_absolute;

const BASE: &str = "http://e/";

fn direct_of(alloc: Global, text: &str) -> Result<Result<Mapping, DirectError>, Fail> {
    let schema = read_schema(alloc, text.as_bytes())?;
    if !is_absolute(BASE) {
        return Err(Fail::new("a relative base"));
    }
    Ok(direct(alloc, &schema, BASE))
}

#[test]
fn a_triples_map_for_each_table(rt: HostRuntime) -> Result<(), Fail> {
    let text =
        "CREATE TABLE dept (id INT PRIMARY KEY); CREATE TABLE emp (id INT PRIMARY KEY, dept INT, FOREIGN KEY (dept) REFERENCES dept (id));";
    let mapping = direct_of(rt.alloc(), text)??;
    assert!(rt; mapping.base.as_str() == BASE);
    assert!(rt; mapping.maps.len() == 2);
    Ok(())
}

#[test]
fn a_table_without_a_primary_key(rt: HostRuntime) -> Result<(), Fail> {
    let text = "CREATE TABLE l (v VARCHAR(5));";
    let fault = match direct_of(rt.alloc(), text)? {
        Ok(_) => None,
        Err(fault) => Some(fault),
    };
    assert!(rt; fault == Some(DirectError::NoPrimaryKey(1)));
    Ok(())
}
