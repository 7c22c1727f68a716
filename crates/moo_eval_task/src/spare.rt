//! Memory of calls that have ended, which the next calls use.

use moo_eval_access::MOST_FRAMES;
use moo_eval_frame::FrameMemory;
use moo_eval_integer::Letters;
use moo_value::Value;
use std::alloc::Global;

/// Holds the memory of frames that have ended, and that of the values of arguments and of the codes of catches. It
/// keeps at most as many of each as a task may have frames. It also holds strings of one letter.
#[derive(Drop)]
pub struct SpareMemory {
    alloc: Global,
    frames: Vec<FrameMemory>,
    values: Vec<Vec<Value>>,
    pub letters: Letters,
}

impl SpareMemory {
    /// Returns spare memory that holds nothing.
    pub(crate) fn new(alloc: Global) -> SpareMemory {
        SpareMemory {
            alloc,
            frames: Vec::new(alloc),
            values: Vec::new(alloc),
            letters: Letters::new(alloc),
        }
    }

    /// Takes out the memory of the frame that ended last. Returns new memory if none is kept.
    #[inline(always)]
    pub fn take(&mut self) -> FrameMemory {
        match self.frames.pop() {
            Some(memory) => memory,
            None => FrameMemory::new(self.alloc),
        }
    }

    /// Keeps the memory of a frame, or drops it if enough is kept. The memory of its arguments is kept apart, since the next
    /// call takes that before the memory of its frame. The arguments are dropped.
    #[inline(always)]
    pub fn keep(&mut self, memory: FrameMemory, arguments: Vec<Value>) {
        self.keep_values(arguments);
        if self.frames.len() >= MOST_FRAMES {
            return;
        }
        if self.frames.len() < self.frames.capacity() {
            self.frames.push_reserved(memory);
        } else {
            self.push_frame(memory);
        }
    }

    // Keeps the memory of a frame if the list of such memory has to grow.
    #[cold]
    #[inline(never)]
    fn push_frame(&mut self, memory: FrameMemory) {
        let _kept = self.frames.push(memory);
    }

    /// Takes out memory for values: that of the arguments of a call, or of the codes of a catch, that has ended.
    /// Returns new memory if none is kept.
    #[inline(always)]
    pub fn take_values(&mut self) -> Vec<Value> {
        match self.values.pop() {
            Some(memory) => memory,
            None => Vec::new(self.alloc),
        }
    }

    /// Keeps the memory of these values, or drops it if enough is kept. The values are dropped.
    #[inline(always)]
    pub fn keep_values(&mut self, values: Vec<Value>) {
        let mut memory = values;
        memory.clear();
        if memory.capacity() == 0 || self.values.len() >= MOST_FRAMES {
            return;
        }
        if self.values.len() < self.values.capacity() {
            self.values.push_reserved(memory);
        } else {
            self.push_values(memory);
        }
    }

    // Keeps memory for values if the list of such memory has to grow.
    #[cold]
    #[inline(never)]
    fn push_values(&mut self, memory: Vec<Value>) {
        let _kept = self.values.push(memory);
    }
}
