//! Where workers wait for parcels.

use std::sync::{Condvar, Mutex, Wait};

// How many parcels are under way, put or in hand; how often some were put; and whether the run is over.
#[derive(Drop)]
struct Progress {
    under_way: u64,
    puts: u64,
    over: bool,
}

/// Where workers that find no parcel wait for one. The run is over when no parcel is under way, or a worker met a fault. No clause rests on
/// what it says: it only keeps workers from going home before the work is done.
#[derive(Drop)]
pub struct Gate {
    progress: Mutex<Progress>,
    moved: Condvar,
}

impl Gate {
    /// Of a run with so many parcels under way.
    pub(crate) fn new(under_way: u64) -> Gate {
        Gate {
            progress: Mutex::new(Progress {
                under_way,
                puts: 0,
                over: false,
            }),
            moved: Condvar::new(),
        }
    }

    /// How often parcels were put, to be asked before a worker looks for one; None where the run is over.
    pub(crate) fn seen<R: Wait>(&self, rt: &R) -> Option<u64> {
        let progress = self.progress.lock(rt);
        if progress.over {
            None
        } else {
            Some(progress.puts)
        }
    }

    /// Waits until parcels were put since, or the run is over.
    pub(crate) fn wait<R: Wait>(&self, rt: &R, seen: u64) {
        let _progress = self
            .moved
            .wait_while(rt, self.progress.lock(rt), |progress| {
                progress.puts == seen && !progress.over
            });
    }

    /// So many more parcels are under way, which aren't put yet.
    pub(crate) fn more<R: Wait>(&self, rt: &R, count: u64) {
        let mut progress = self.progress.lock(rt);
        progress.under_way = progress.under_way.wrapping_add(count);
    }

    /// So many parcels were put.
    pub(crate) fn put<R: Wait>(&self, rt: &R, count: u64) {
        let mut progress = self.progress.lock(rt);
        progress.puts = progress.puts.wrapping_add(1);
        if count == 1 {
            self.moved.notify_one();
        } else {
            self.moved.notify_all();
        }
    }

    /// A parcel is finished, and none came of it. Behind the last one the run is over.
    pub(crate) fn finished<R: Wait>(&self, rt: &R) {
        let mut progress = self.progress.lock(rt);
        progress.under_way = progress.under_way.wrapping_sub(1);
        if progress.under_way == 0 {
            progress.over = true;
            self.moved.notify_all();
        }
    }

    /// The run is over.
    pub(crate) fn close<R: Wait>(&self, rt: &R) {
        let mut progress = self.progress.lock(rt);
        progress.over = true;
        self.moved.notify_all();
    }
}
