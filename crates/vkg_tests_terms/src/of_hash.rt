use std::alloc::Global;
use std::collections::HashMap;
use std::hash::{BuildHasher, BuildHasherDefault, FoldHasher};
use std::test::Fail;
use vkg_base::Memory;
use vkg_hash::{Groups, Seed, numbers_of, put};

// Texts that std's fast hasher, whose seed is fixed, gives one hash.
static OF_ONE_HASH: [&str; 3] = [
    "a000000000032632OD1Ho18G000000000123456789abcdef",
    "a000000000032632OD1Ho18G000000010123456789abcdef",
    "a000000000032632OD1Ho18G000000020123456789abcdef",
];

// How many of the texts have the hash of the first.
fn of_one_hash<S: BuildHasher>(builder: &S) -> usize {
    let first = builder.hash_one(OF_ONE_HASH[0]);
    OF_ONE_HASH
        .iter()
        .filter(|text| builder.hash_one(**text) == first)
        .count()
}

#[test]
fn texts_of_one_hash_are_parted_by_a_seed(rt: HostRuntime) {
    let fixed: BuildHasherDefault<FoldHasher> = BuildHasherDefault::new();
    assert!(rt; of_one_hash(&fixed) == 3);
    assert!(rt; of_one_hash(&Seed::new(0)) == 1);
    assert!(rt; of_one_hash(&Seed::of_keys(&OF_ONE_HASH)) == 1);
    assert!(rt; of_one_hash(&Seed::of_bytes(b"a")) == 1);
}

#[test]
fn hashes_are_those_of_their_seed(rt: HostRuntime) {
    for &text in &[
        "",
        "a",
        "abcdefg",
        "abcdefgh",
        "abcdefghi",
        "abcdefghabcdefgh",
    ] {
        let hash = Seed::of_bytes(b"seed").hash_one(text);
        assert!(rt; hash == Seed::of_bytes(b"seed").hash_one(text), "{text}");
        assert!(rt; hash != Seed::of_bytes(b"other").hash_one(text), "{text}");
        assert!(rt; hash != Seed::of_bytes(b"seed").hash_one("b"), "{text}");
    }
}

// Each text's places among these.
fn groups(alloc: Global, texts: &[&str]) -> Result<Groups, Memory> {
    let mut groups = HashMap::with_hasher(alloc, Seed::of_keys(texts));
    for (number, text) in texts.iter().enumerate() {
        put(&mut groups, String::from_str(alloc, text)?, number)?;
    }
    Ok(groups)
}

#[test]
fn numbers_are_put_under_their_texts(rt: HostRuntime) -> Result<(), Fail> {
    let groups = groups(rt.alloc(), &["a", "b", "a"])?;
    assert!(rt; groups.len() == 2);
    assert!(rt; numbers_of(&groups, "a") == [0, 2].as_slice());
    assert!(rt; numbers_of(&groups, "c").is_empty());
    Ok(())
}
