use super::*;
use std::process::Abort;
use std::test::Fail;

fn says(rt: &(impl Abort + AllocGlobal), line: &str, text: &str) -> Result<(), Fail> {
    let reply = answer(rt.alloc(), line)?;
    assert_eq!(rt; format!(in rt.alloc(); "{reply}")?.as_str(), text);
    Ok(())
}

#[test]
fn three_rows(rt: HostRuntime) -> Result<(), Fail> {
    says(
        &rt,
        "11 8 5\n",
        "row 0: depth 11, request 76 moves, drain 26 moves\nrow 1: depth 8, request 58 moves, drain 20 moves\nrow 2: depth 5, request 40 moves, drain 14 moves\nrequest: 174 moves, 27840 bytes\ndrain: 60 moves, 9600 bytes\n",
    )
}

#[test]
fn wrong_words(rt: HostRuntime) -> Result<(), Fail> {
    says(&rt, "\n", "word 1: there is no depth\n")?;
    says(
        &rt,
        "11 13 5\n",
        "word 2: '13' is not a depth from 1 to 12\n",
    )?;
    says(&rt, "0\n", "word 1: '0' is not a depth from 1 to 12\n")?;
    says(
        &rt,
        "12 8 five\n",
        "word 3: 'five' is not a depth from 1 to 12\n",
    )
}
