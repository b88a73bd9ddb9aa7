use std::test::*;
use text::Expected;
use towers::SidedTray;
use trays::Kind;

#[test]
fn trays(rt: HostRuntime) -> Result<(), Fail> {
    let here = SidedTray {
        number: 12,
        away: false,
    };
    let away = SidedTray {
        number: 3,
        away: true,
    };
    assert_eq!(rt; format!(in rt.alloc(); "{here} {away}")?.as_str(), "12 -3");
    Ok(())
}

#[test]
fn kinds_and_places(rt: HostRuntime) -> Result<(), Fail> {
    let kind = Kind::Ring;
    let end = Expected::End;
    assert_eq!(rt;
        format!(in rt.alloc(); "{kind}: {end}")?.as_str(),
        "ring: the end of the line"
    );
    Ok(())
}
