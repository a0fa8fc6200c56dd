//! What no file of cases says.

use super::reading::read;
use cases::case::holds;
use cases::tally::tally_of;
use jobs::whole::last_reply;
use pile::pile::Memories;
use replies::example::{Example, worked_example};
use std::test::Fail;
use text::reply::Reply;

/// Every kind of line; of its two cases the second is answered otherwise.
const FILE: &str = r#"# A theme.

case first
# What it shows.
= 20   ; start
> 40 0001   < 40 0000000000000001 0000000000000000 0000000000000000   ; a cycle
>  < FF 02 00000003 00000000
> "2 \0A" 2   < FF 02 00000004 00000000   ; twice
< FF 02 00000005 00000000
> "50 00"   < 50 00 00000000

case second
> 40 0001
< FF 05 00000001 00000000
= 20
= 20   ; the second start is denied
"#;

#[test]
fn a_file_of_cases(rt: HostRuntime) -> Result<(), Fail> {
    let cases = read(rt.alloc(), FILE)?;
    assert!(rt; cases.len() == 2);
    let (first, second) = (&cases[0], &cases[1]);
    assert!(rt; first.job.as_slice() == b"20\n40 0001\n\n2 \n2 \n50 00".as_slice());
    assert!(rt; second.replies.as_str() == "FF 05 00000001 00000000\n20\n20\n");
    assert!(rt; first.name == "first" && first.line == 3);
    assert!(rt; second.name == "second" && second.line == 12);
    let tally = tally_of(&cases);
    assert!(rt; tally.cases == 2 && tally.differ == 1);
    Ok(())
}

#[test]
fn malformed_files(rt: HostRuntime) -> Result<(), Fail> {
    let heap = rt.alloc();
    for (text, why) in [
        ("> 20\n", "line 1: a line in front of the first case"),
        ("case a\n20\n", "line 2: a line with no mark"),
        ("case a\n20 < 20\n", "line 2: a line with no mark"),
        ("case a\n= 2\n", "line 2: no kind behind ="),
        ("case a\n> \"20\n", "line 2: a quote has no end"),
        (
            "case a\n> \"20\" x < 20\n",
            "line 2: no number behind a quote",
        ),
        ("case a\n\n> \"\\0\"\n", "line 3: no two digits behind \\"),
        ("case a\n\n> \"\\+F\"\n", "line 3: no two digits behind \\"),
    ] {
        match read(heap, text) {
            Ok(_) => assert!(rt; false, "read: {text}"),
            Err(error) => {
                let told = format!(in heap; "{error:#}")?;
                assert!(rt; told.as_str().starts_with(why), "{told}");
            }
        }
    }
    Ok(())
}

#[test]
fn the_most_lines(rt: HostRuntime) -> Result<(), Fail> {
    let heap = rt.alloc();
    let job = vec![in heap; b'\n'; 65_536]?;
    let mut replies = Vec::new(heap);
    for line in 1..=65_536u32 {
        replies.extend_from_slice(format!(in heap; "FF 02 {line:08X} 00000000\n")?.as_bytes())?;
    }
    assert!(rt; holds(&job, &replies));
    Ok(())
}

#[test]
fn the_example(rt: HostRuntime) {
    let Example { job, replies } = worked_example();
    assert!(rt; holds(job, replies));
}

#[test]
fn the_last_reply(rt: HostRuntime) {
    let mut memories = Memories::zeroed();
    let last = last_reply(memories.pile(), worked_example().job);
    assert!(rt; matches!(last, Some(Reply::Shown(1, 0x1234_0000))));
}
