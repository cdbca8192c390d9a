//! Faults of scripts as text. What is read of a text, and the token of each fault, are whole runs:
//! `tests/lib/scripts.py`.
use script_parse::ParseFault;
use std::process::Abort;
use std::test::Fail;

// Each fault of parsing is printed as its message.
#[test]
fn faults_are_printed(rt: HostRuntime) -> Result<(), Fail> {
    let first = ParseFault::Syntax(4);
    let second = ParseFault::TooDeep(202);
    let text = format!(in rt.alloc(); "{first}; {second}; {}", ParseFault::Memory)?;
    assert_eq!(rt;
        text.as_str(),
        "no script begins with the tokens up to token 4; more than 200 levels are nested at token 202; out of memory"
    );
    Ok(())
}
