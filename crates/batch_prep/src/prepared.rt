// A batch with its rows.
ghost use Rattle.std.specs.Prelude.{◌≡◌};
ghost use Rattle.batch_prep.specs.Items.{AreRows};

use crate::WorkItem;
use outside::RawRowList;
use std::marker::Model;

/// A batch of lines and the rows of its RECORD messages, in order. It has those rows and no others.
#[derive(Debug, Drop)]
pub struct Prepared {
    item: WorkItem,
    rows: RawRowList,
}

impl Model for Prepared {
    ghost use Rattle.batch_prep.specs.Items.{AreRows, Batch};

    ghost Value = { Batch };

    ghost view = { λ prepared. record { item = prepared.item; rows = prepared.rows } };

    ghost invariant = { λ prepared. AreRows prepared.item.plan prepared.item.lines prepared.rows };
}

impl Prepared {
    // A batch and its rows.
    pub(crate) fn new(item: WorkItem, rows: RawRowList) -> Self
        requires { AreRows item.plan item.lines rows }
        ensures item { result.item ≡ item }
        ensures rows { result.rows ≡ rows }
    {
        Prepared { item, rows }
    }

    /// The batch.
    pub fn item(&self) -> &WorkItem
        ensures { result.now ≡ self.now.item }
    {
        &self.item
    }

    /// The rows.
    pub fn rows(&self) -> &RawRowList
        ensures rows { result.now ≡ self.now.rows }
        ensures are { AreRows self.now.item.plan self.now.item.lines self.now.rows }
    {
        &self.rows
    }

    /// The batch and the rows, in their memory.
    pub fn into_parts(self) -> (WorkItem, RawRowList)
        ensures item { result.0 ≡ self.item }
        ensures rows { result.1 ≡ self.rows }
        ensures are { AreRows self.item.plan self.item.lines self.rows }
    {
        (self.item, self.rows)
    }
}
