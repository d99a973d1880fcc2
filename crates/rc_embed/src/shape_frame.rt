//! Frames by which operations are looked up by what they ask.

ghost use Rattle.rc_row.specs.Passes.{spec_of};
ghost use Rattle.rc_embed.specs.ShapeFrames.{AnswersShape};

use crate::codes::{DONE, MEMORY, OPERATION};
use crate::open_frame::OperationFrame;
use crate::opening::OpenStore;
use rc_tuple::Memory;

/// The longest line that a frame has room for.
pub const MAX_LINE: usize = 4096;

/// Which operation is meant, by what it asks, and what its calls give and are told.
#[repr(C)]
#[derive(Drop)]
pub struct ShapeFrame {
    /// Asked: how many bytes the line has, as its length, at most 4096. Told: the operation, as where it
    /// is looked up by its name.
    pub operation: OperationFrame,
    /// Asked: the bytes of the line.
    pub line: [u8; MAX_LINE],
}

impl OpenStore {
    /// Looks the first operation up, declared or not, that asks as the frame's line does, and tells the
    /// frame its number and what its calls give and are told.
    pub fn shape_by(&self, frame: &mut ShapeFrame) -> u32
        ensures { AnswersShape (spec_of self.now.store.row) frame.old frame.new result }
    {
        let length = frame.operation.length as usize;
        if length > MAX_LINE {
            return OPERATION;
        }
        match self.shape(&frame.line[..length]) {
            Ok(Some(number)) => {
                self.tell_operation(number, &mut frame.operation);
                DONE
            }
            Ok(None) => OPERATION,
            Err(Memory) => MEMORY,
        }
    }
}
