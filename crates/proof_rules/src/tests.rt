use crate::{Gone, Settlement, Side, Stay, claims};
use clause_db::Log;
use std::test::Fail;

#[test]
fn pairs_that_stay_are_claimed(rt: HostRuntime) -> Result<(), Fail> {
    let alloc = rt.alloc();
    let mut out = Vec::new(alloc);
    out.push((2, Gone::Large(253_952)))?;
    let mut stay = Vec::new(alloc);
    stay.push((0, Stay::Twin))?;
    stay.push((
        1,
        Stay::Proved(Log {
            lines: Vec::new(alloc),
        }),
    ))?;
    let mut full = Vec::new(alloc);
    full.push((0, Stay::Ends))?;
    let settlement = Settlement {
        same: Side { out, stay },
        calls: Side {
            out: Vec::new(alloc),
            stay: full,
        },
    };
    let claims = claims(alloc, &settlement)?;
    assert_eq!(rt; claims.partial.as_slice(), [0, 1].as_slice());
    assert_eq!(rt; claims.full.as_slice(), [0].as_slice());
    Ok(())
}
