//! How an output is told that may have gaps.
use fallible_infer::Fallible;
use std::test::Fail;

// The text of the fault that an output may have gaps names its sink.
#[test]
fn an_output_that_may_have_gaps_is_told(rt: HostRuntime) -> Result<(), Fail> {
    let told = format!(in rt.alloc(); "{}", Fallible { sink: 2 })?;
    assert_eq!(rt; told.as_str(), "sink 2 may have gaps");
    Ok(())
}
