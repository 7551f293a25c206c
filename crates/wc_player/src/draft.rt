//! What the lines before say.

use crate::content::Content;
use crate::deed::{Call, Deed, Step, Transcript};
use crate::mistake::Mistake;
use crate::names::Names;
use crate::source::Source;
use std::alloc::Global;
use std::mem;
use wc_value::{List, Text, put};

/// In which block a line stands.
#[derive(Clone, Copy)]
enum Block {
    None,
    Repeat,
    Sweep,
}

/// What the lines before say.
#[derive(Drop)]
pub struct Draft<'a> {
    /// The bytes and the results that have names.
    pub names: Names<'a>,
    transcripts: List<Transcript>,
    /// The name of the transcript that has begun.
    name: Option<Text>,
    wrong: u64,
    steps: List<Step>,
    block: Block,
}

/// Whether a call speaks of what a sweep does.
fn is_swept(call: &Call) -> bool {
    !call.failed.is_empty() || !call.stages.is_empty()
}

/// The block in which the lines behind a step stand, where the step may stand in this one.
fn block_behind(block: Block, deed: &Deed) -> Option<Block> {
    match (deed, block) {
        (Deed::Repeat(..), Block::None) => Some(Block::Repeat),
        (Deed::Sweep(_), Block::None) => Some(Block::Sweep),
        (Deed::Repeat(..) | Deed::Sweep(_), _) => None,
        (Deed::End, Block::None) => None,
        (Deed::End, _) => Some(Block::None),
        (Deed::Ask(_) | Deed::Last | Deed::Call(_), Block::Sweep) => Some(Block::Sweep),
        (Deed::Ask(_) | Deed::Last, _) => None,
        (Deed::Call(call), _) if is_swept(call) => None,
        (_, Block::Sweep) => None,
        (_, block) => Some(block),
    }
}

impl<'a> Draft<'a> {
    /// What no lines say.
    pub fn new(alloc: Global) -> Draft<'a> {
        Draft {
            names: Names {
                named: List::new(alloc),
                tables: List::new(alloc),
            },
            transcripts: List::new(alloc),
            name: None,
            wrong: 0,
            steps: List::new(alloc),
            block: Block::None,
        }
    }

    /// The transcript before is whole. A block that is open is a mistake.
    pub fn close(&mut self, source: &mut Source<'_>) {
        if !matches!(self.block, Block::None) {
            source.fail(Mistake::Block);
        }
        if let Some(name) = self.name.take() {
            let steps = mem::replace(&mut self.steps, List::new(source.alloc));
            let wrong = mem::replace(&mut self.wrong, 0);
            source.keep(self.transcripts.push(Transcript { name, wrong, steps }));
        }
    }

    /// One of the name that is left of the line begins.
    pub fn begin(&mut self, source: &mut Source<'_>) {
        match Text::of_str(source.alloc, source.line) {
            Ok(name) => put(&mut self.name, Some(name)),
            Err(_) => source.fail(Mistake::OutOfMemory),
        }
    }

    /// It is a mistake where no transcript has begun.
    fn check_begun(&self, source: &mut Source<'_>) {
        if self.name.is_none() {
            source.fail(Mistake::NoTranscript);
        }
    }

    /// So many answers of the transcript are wrong on purpose.
    pub fn set_wrong(&mut self, source: &mut Source<'_>) {
        self.wrong = source.count();
        source.end(Mistake::Word);
        self.check_begun(source);
    }

    /// Puts a step behind those of the transcript.
    pub fn put(&mut self, source: &mut Source<'_>, step: Step) {
        match block_behind(self.block, &step.deed) {
            Some(block) => self.block = block,
            None => source.fail(Mistake::Block),
        }
        self.check_begun(source);
        source.keep(self.steps.push(step));
    }

    /// The transcripts.
    pub fn finish(&mut self, alloc: Global) -> List<Transcript> {
        mem::replace(&mut self.transcripts, List::new(alloc))
    }
}
