// A terminal on the bench.
use bench_run::run::Run;
use store::layout::STORE;

// How many bytes of sections are kept: six sections.
const KEPT: usize = 6 * 48;

#[derive(Drop)]
pub struct Bench {
    // what the engine is lent
    pub(crate) store: [u8; STORE],
    // the first sections of uploads, one behind the other, and where they end
    sections: [u8; KEPT],
    kept: usize,
    pub run: Run,
}

impl Bench {
    pub fn new(run: Run) -> Bench {
        Bench {
            store: [0; STORE],
            sections: [0; KEPT],
            kept: 0,
            run,
        }
    }

    // Keeps a section behind the others, as long as there is room.
    pub(crate) fn keep(&mut self, section: &[u8]) {
        let end = self.kept.saturating_add(section.len());
        if end <= KEPT {
            self.sections[self.kept..end].copy_from_slice(section);
            self.kept = end;
        }
    }

    // Were six sections fetched, and the same ones on both benches?
    pub fn has_same_sections(&self, other: &Bench) -> bool {
        (self.kept == KEPT)
            & (other.kept == KEPT)
            & octets::same_bytes(&self.sections, &other.sections)
    }
}
