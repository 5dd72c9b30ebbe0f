mod periods;
mod sets;
mod units;

use super::asked_again::{aliases_of, expand};
use oim_dims::{Unit, read_unit};
use oim_names::{Aliases, Reason};
use test_helpers::asked_again::may_repeat;

fn example(rt: &HostRuntime) -> Result<Aliases, Reason> {
    aliases_of(
        rt,
        &[
            ("eg", "http://example.org/t"),
            ("x", "http://example.org/u"),
            ("xbrli", "http://www.xbrl.org/2003/instance"),
            ("xbrl", "https://xbrl.org/2021"),
        ],
    )
}

fn unit(rt: &HostRuntime, aliases: &Aliases, spelled: &str) -> Result<Option<Unit>, Reason> {
    match read_unit(rt.alloc(), aliases, spelled) {
        Err(Reason::OutOfMemory) if may_repeat(rt) => read_unit(rt.alloc(), aliases, spelled),
        answer => answer,
    }
}
