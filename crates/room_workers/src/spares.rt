//! The cursors that nobody reads by come back once no thread helps any more.
use crate::channels::Channels;
use bits_ip::OutOfMemory;
use std::alloc::Global;
use std::mem;
use std::sync::{Mutex, Wait};
use table_shared::TableCursor;

/// The cursors of a list, which has none then.
fn take_list<R: Wait>(alloc: Global, rt: &R, list: &Mutex<Vec<TableCursor>>) -> Vec<TableCursor> {
    let mut cursors = list.lock(rt);
    mem::replace(&mut cursors, Vec::new(alloc))
}

impl Channels {
    /// In the place of each channel's number its cursors of tables that it doesn't read, for who
    /// has the tables go on once no thread helps any more.
    pub fn into_spares<R: Wait>(
        self,
        rt: &R,
        alloc: Global,
    ) -> Result<Vec<Vec<TableCursor>>, OutOfMemory> {
        let mut lists = Vec::new(alloc);
        for place in 0..self.spares.len() {
            lists.push(take_list(alloc, rt, &self.spares[place]))?;
        }
        Ok(lists)
    }
}
