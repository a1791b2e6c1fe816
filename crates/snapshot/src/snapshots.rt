// A snapshot: which transactions were running at one moment.
ghost use Rattle.std.specs.Prelude.{◌≡◌};
ghost use Rattle.snapshot.specs.Snapshots.{data_of, running, snapshot_at};
ghost use Rattle.snapshot.specs.Lists.{numbers_of};

use crate::horizons::nearest;
use crate::lists::XidList;
use xid::numbers::precedes;
use xid::window::Window;

// Everything before `xmin` had ended, nothing from `xmax` on had begun, and of the numbers between, those listed were open.
#[derive(Clone, Copy)]
pub struct Snapshot {
    xmin: u32,
    xmax: u32,
    listed: XidList,
}

impl Snapshot {
    // The snapshot for a window, of the numbers that are active.
    pub(crate) fn of_window(window: Window, active: &XidList) -> Snapshot
        ensures { data_of result ≡ snapshot_at window.oldest window.next (numbers_of active.now) }
    {
        let mut listed = *active;
        listed.retain(|x| window.contains(x));
        let xmin = nearest(window.oldest, window.next, listed.as_slice());
        Snapshot {
            xmin,
            xmax: window.next,
            listed,
        }
    }

    pub fn xmin(&self) -> u32
        ensures { result ≡ (data_of self.now).xmin }
    {
        self.xmin
    }

    // Whether x counts as running: it does not precede xmin, and it does not precede xmax or is listed.
    pub fn is_running(&self, x: u32) -> bool
        ensures { result ≡ running (data_of self.now) x }
    {
        !precedes(x, self.xmin) && (!precedes(x, self.xmax) || self.listed.contains(x))
    }
}
