//! What a pool task is to do, and how it ends.

/// What a task does under the turn of a tier.
#[derive(Clone, Copy, Debug, PartialEq, Eq)]
pub enum PoolJob {
    /// It takes the least free frame where more than `floor` are free.
    Take { tier: u32, floor: u32 },
    /// It counts the free frames.
    Level { tier: u32 },
    /// It puts a frame back.
    Back { frame: u32 },
}

/// The outcome of a task.
#[derive(Clone, Copy, Debug, PartialEq, Eq)]
pub enum PoolEnd {
    /// This frame was the least free one, and more than the floor were free. It is owned now.
    Got(u32),
    /// So many frames are free, which is at most the floor.
    AtFloor(u32),
    /// So many frames are free.
    Level(u32),
    /// The frame is free again.
    Back,
}

/// What a task is made with: its job, and what it needs of the geometry.
#[derive(Clone, Copy, Debug, PartialEq, Eq)]
pub struct PoolMade {
    /// The job.
    pub job: PoolJob,
    /// The tier of the job, or of its frame.
    pub tier: u32,
    /// The first frame of the tier.
    pub base: u32,
    /// How many words the free frames of the tier have.
    pub words: u32,
}
