// Storms: the summaries that other words and the same words again are owed, as another program computed them.
use super::calls::answered;
use crate::Bench;
use lab_text::Status;
use std::test::Fail;

const ZEROS: &str = "0000000000000000000000000000000000000000000000000000000000000000";

const OTHER: &str = "28a3aa1a6d417801f6cc94c239552c912a8e8c44d4c40e72a4a07e0229e03ecd";

#[test]
fn summaries(rt: HostRuntime) -> Result<(), Fail> {
    let alloc = rt.alloc();
    let cases = [
        (
            7,
            ZEROS,
            "storm 7 handed 5 spent 0 sealed 0 length 2 other 0\n",
        ),
        (
            7,
            OTHER,
            "storm 7 handed 4 spent 1 sealed 1 length 1 other 0\n",
        ),
        (
            200,
            ZEROS,
            "storm 200 handed 122 spent 28 sealed 29 length 21 other 0\n",
        ),
    ];
    for (count, seed, summary) in cases {
        let mut bench = Bench::in_memory(alloc)?;
        let line = format!(in alloc; "storm lab {count} {seed}")?;
        let (status, text) = answered(alloc, &mut bench, line.as_str())?;
        assert!(rt; status == Status::Done);
        assert!(rt; text.as_slice() == summary.as_bytes());
    }
    Ok(())
}

// What was spent stays spent: the packets that were handed on and those that were spent are refused as spent.
#[test]
fn the_same_storm_again_on_the_same_disks(rt: HostRuntime) -> Result<(), Fail> {
    let alloc = rt.alloc();
    let mut bench = Bench::in_memory(alloc)?;
    let line = format!(in alloc; "storm lab 200 {ZEROS}")?;
    answered(alloc, &mut bench, line.as_str())?;
    let (status, text) = answered(alloc, &mut bench, line.as_str())?;
    assert!(rt; status == Status::Done);
    let summary = "storm 200 handed 0 spent 150 sealed 29 length 21 other 0\n";
    assert!(rt; text.as_slice() == summary.as_bytes());
    Ok(())
}

#[test]
fn numbers_out_of_range_are_no_storm(rt: HostRuntime) -> Result<(), Fail> {
    let alloc = rt.alloc();
    for words in [
        "storm lab 0",
        "storm lab 100001",
        "storm ntru 2001",
        "storm lab -1",
    ] {
        let mut bench = Bench::in_memory(alloc)?;
        let line = format!(in alloc; "{words} {ZEROS}")?;
        let (status, text) = answered(alloc, &mut bench, line.as_str())?;
        assert!(rt; status == Status::Words);
        assert!(rt; text.is_empty());
    }
    Ok(())
}
