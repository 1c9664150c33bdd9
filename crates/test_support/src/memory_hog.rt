//! All memory that the process can have.
use std::alloc::{AllocError, Global};

/// Blocks of memory that nothing uses. While they are held, every allocation fails, since none is left: the process's addresses, or
/// what the system lets it have, are all taken. Of a large block only a page is ever touched, so little of the machine's memory is used.
#[derive(Drop)]
pub struct MemoryHog {
    alloc: Global,
    blocks: Vec<Vec<u8>>,
}

/// The number of blocks that a hoard can hold.
const ROOM: usize = 1 << 18;

/// The largest block that is asked for has 2^46 octets, and the smallest of those that double has 2^4.
const LARGEST: u32 = 46;

const SMALLEST: u32 = 4;

/// Of smaller blocks each size is asked for, since a freed block of any size may be kept for the next that asks for that size.
const SMALL: usize = 4096;

/// Every size up to this is looked at.
const LOOKED_AT: usize = 65_536;

impl MemoryHog {
    /// Takes all memory there is.
    ///
    /// # Errors
    ///
    /// [`AllocError`], where there is no memory for the list of the blocks.
    pub fn of_all(alloc: Global) -> Result<MemoryHog, AllocError> {
        let mut hoard = MemoryHog {
            alloc,
            blocks: Vec::with_capacity(alloc, ROOM)?,
        };
        for shift in (SMALLEST..=LARGEST).rev() {
            hoard.take_all(1 << shift);
        }
        for size in (1..=SMALL).rev() {
            hoard.take_all(size);
        }
        Ok(hoard)
    }

    /// Takes blocks of this size until none is left, or no more can be held.
    fn take_all(&mut self, size: usize) {
        let room = self.blocks.capacity().saturating_sub(self.blocks.len());
        for _ in 0..room {
            let Ok(block) = Vec::with_capacity(self.alloc, size) else {
                return;
            };
            if self.blocks.push(block).is_err() {
                return;
            }
        }
    }

    /// Tells whether nothing is left: an allocation of any size up to 65,536 octets fails, and of each larger power of two.
    pub fn has_all(&self) -> bool {
        let is_left = |size: usize| Vec::<u8>::with_capacity(self.alloc, size).is_ok();
        for size in 1..=LOOKED_AT {
            if is_left(size) {
                return false;
            }
        }
        for shift in SMALLEST..=LARGEST {
            if is_left(1 << shift) {
                return false;
            }
        }
        true
    }
}
