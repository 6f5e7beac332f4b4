// Printed refusals.

use r10_body::{FileFault, Glance, Refusal};
use std::test::Fail;

#[test]
fn refusals_print_number_name_and_values(rt: HostRuntime) -> Result<(), Fail> {
    let seen = Glance {
        commits: 2,
        file: 0,
        bytes: 112,
    };
    let table = [
        (Refusal::Failed, "1 Failed"),
        (Refusal::MediumFull, "25 MediumFull"),
        (Refusal::BadDirectory(1), "26 BadDirectory 1"),
        (
            Refusal::BadFile(272, FileFault::Truncated),
            "27 BadFile 272 Truncated",
        ),
        (Refusal::BadFile(0, FileFault::Sync), "27 BadFile 0 Sync"),
        (
            Refusal::BadFile(0, FileFault::HeaderSum),
            "27 BadFile 0 HeaderSum",
        ),
        (
            Refusal::BadFile(0, FileFault::Length),
            "27 BadFile 0 Length",
        ),
        (
            Refusal::BadFile(0, FileFault::DataSum),
            "27 BadFile 0 DataSum",
        ),
        (Refusal::BadFile(0, FileFault::Body), "27 BadFile 0 Body"),
        (
            Refusal::BadFile(32, FileFault::Rule(4)),
            "27 BadFile 32 Rule 4",
        ),
        (
            Refusal::BadFile(124, FileFault::Rule(11)),
            "27 BadFile 124 Rule 11",
        ),
        (Refusal::Behind(seen), "29 Behind 2 0 112"),
        (Refusal::OutOfMemory, "30 OutOfMemory"),
    ];
    for (refusal, printed) in table {
        let line = format!(in rt.alloc(); "{refusal}")?;
        assert_eq!(rt; line.as_str(), printed);
    }
    Ok(())
}
