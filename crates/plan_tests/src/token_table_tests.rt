// What no clause says: that a table takes values where memory is ample.
use liq_base::TokenTable;
use std::test::Fail;

// A table by token indexes gives the value that was put last for each token, and none for the others.
#[test]
fn a_table_keeps_the_value_of_each_token(rt: HostRuntime) -> Result<(), Fail> {
    let mut table = TokenTable::new(rt.alloc());
    table.put(3, 'c')?;
    table.put(1, 'a')?;
    table.put(3, 'd')?;
    assert_eq!(rt; table.get(1), Some('a'));
    assert_eq!(rt; table.get(2), None);
    assert_eq!(rt; table.get(3), Some('d'));
    assert_eq!(rt; table.get(4), None);
    Ok(())
}
