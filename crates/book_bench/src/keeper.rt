// A keeper that keeps nothing.
use basics::{Sequence, StreamNo};
use kept_dock::{Keeper, KeptLoad};
use outside::{Fault, LoadPlan, Marks, MarksList, RawRow, RawRowList, StreamIdList, Unmerged};
use std::alloc::Global;

/// Tables that are empty however much is committed.
#[derive(Drop)]
pub struct EmptyKeeper {
    pub alloc: Global,
}

impl Keeper for EmptyKeeper {
    fn open(&mut self, _name: &str) -> Result<(), Fault> {
        Ok(())
    }

    fn marks(&mut self, alloc: Global, streams: &StreamIdList) -> Result<MarksList, Fault> {
        let mut marks = Sequence::with_capacity(alloc, streams.len())?;
        for _ in 0..streams.len() {
            marks.push(Marks {
                floor: 0,
                top: None,
                greatest: None,
            })?;
        }
        Ok(marks)
    }

    fn open_load(&mut self, plan: &LoadPlan, _moment: u64) -> Result<KeptLoad, Fault> {
        let mut side_marks = Sequence::with_capacity(self.alloc, plan.len())?;
        for _ in 0..plan.len() {
            side_marks.push(0)?;
        }
        Ok(KeptLoad {
            load: 1,
            side_marks,
        })
    }

    fn commit(&mut self, _stream: StreamNo, _rows: &RawRowList) -> Result<(), Fault> {
        Ok(())
    }

    fn unmerged(
        &mut self,
        _alloc: Global,
        _stream: StreamNo,
        _most: u32,
    ) -> Result<Unmerged, Fault> {
        Err(Fault::Failed)
    }

    fn winner(
        &mut self,
        _alloc: Global,
        _stream: StreamNo,
        _key: &[u8],
    ) -> Result<Option<RawRow>, Fault> {
        Err(Fault::Failed)
    }

    fn merge(&mut self, _stream: StreamNo, _winners: &RawRowList, _mark: u64) -> Result<(), Fault> {
        Err(Fault::Failed)
    }

    fn show(&mut self, _stream: StreamNo) -> Result<(), Fault> {
        Ok(())
    }
}
