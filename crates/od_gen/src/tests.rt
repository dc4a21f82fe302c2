use super::*;
use sha2::{Digest, Sha256};
use std::test::Fail;

/// How many bytes a generated script has, and its digest as another program computes both.
const TABLE: [(u32, usize, &str); 4] = [
    (
        1,
        2315,
        "60c9dcf8e78d030d5005b84a181474580ea884c9a7a26eb82fee6f60b3901ab4",
    ),
    (
        90,
        4789,
        "35db7595805f2dd048f002b4f6192d2117ab00a0791a3cd66096f1d3392db461",
    ),
    (
        1200,
        38469,
        "96363ab8dfc7f6018bf01bbecb1eec72d0a4d3d6a4ff73b83a3d29f33ece178f",
    ),
    (
        5000,
        160069,
        "acdeb35dba9a8feaad7679ab9840ca22f8dc2407c4032d9a1f38688c1f06a2aa",
    ),
];

#[test]
fn scripts_have_the_digests_of_a_shell_loop(rt: HostRuntime) -> Result<(), Fail> {
    let alloc = rt.alloc();
    for (n, length, digest) in TABLE {
        assert!(rt; 1 <= n && n <= 5000);
        let script = generate(alloc, n)?;
        assert_eq!(rt; script.len(), length);
        let found = hex::encode(alloc, Sha256::digest(script.as_bytes()).as_slice())?;
        assert!(rt; found.as_str() == digest);
    }
    Ok(())
}
