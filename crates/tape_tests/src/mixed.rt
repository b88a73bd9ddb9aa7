use crate::data::TAPES;
use crate::desk::replies;
use std::test::*;

#[test]
fn random_tapes(rt: HostRuntime) -> Result<(), Fail> {
    for (n, (tape, told)) in TAPES.iter().enumerate() {
        assert_eq!(rt; replies(&rt, tape)?.as_slice(), *told, "at tape {n}");
    }
    Ok(())
}
