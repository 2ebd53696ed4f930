//! What a pass keeps of its critical sections, as plain data: its open sections with the locks that each
//! took, the locks that the call in flight took itself, and the call's mark. A step of the bank leaves
//! all of it alone; `ft_section` alone changes it, and takes no memory for it.
ghost use Rattle.std.specs.Prelude.{◌≡◌, ◌≤◌, ◌<◌, ◌++◌, ◌∷◌, [], length, map, None};
ghost use Rattle.ft_bank.specs.declared.sections.OpenSection.{OpenSection};
ghost use Rattle.ft_bank.specs.PassSections.{suspended};

use std::marker::Model;

/// One or two containers, and which of their locks were taken.
#[derive(Clone, Copy, Debug, PartialEq, Eq)]
pub struct Taking {
    /// The container with the lower number.
    pub lower: u32,
    /// The other container; where there is one alone, the same number again.
    pub upper: u32,
    /// Whether the lock of the lower one was taken, and wasn't let go since.
    pub took_lower: bool,
    /// The same of the other one; false where there is one alone.
    pub took_upper: bool,
}

impl Taking {
    /// No lock is taken.
    pub const NONE: Taking = Taking {
        lower: 0,
        upper: 0,
        took_lower: false,
        took_upper: false,
    };
}

/// A section that is open (C API, critical sections).
#[derive(Clone, Copy, Debug, PartialEq, Eq)]
pub struct OpenSection {
    /// Its containers, and which of their locks it took itself.
    pub locks: Taking,
    /// How many calls in it had to wait; it stands still at the greatest number.
    pub marks: u32,
}

impl OpenSection {
    /// The section when it has let its locks go, with that number of marked calls more.
    fn suspended(&self, marks: u32) -> OpenSection
        ensures { result ≡ suspended marks self.now }
    {
        OpenSection {
            locks: Taking {
                took_lower: false,
                took_upper: false,
                ..self.locks
            },
            marks: self.marks.saturating_add(marks),
        }
    }
}

/// The open sections of a pass, the outermost first; at most 16 (profile).
#[derive(Debug, Drop)]
pub struct Sections {
    open: [OpenSection; 16],
    depth: usize,
}

impl Model for Sections {
    ghost use Rattle.std.specs.Prelude.{◌≤◌, List, take};
    ghost use Rattle.ft_bank.specs.declared.sections.OpenSection.{OpenSection};

    ghost Value = { List OpenSection };

    ghost view = { λ s. take s.depth s.open };

    ghost invariant = { λ s. s.depth ≤ 16 };
}

impl Sections {
    /// No section is open.
    pub(crate) fn none() -> Sections
        ensures { result ≡ [] }
    {
        let unused = OpenSection {
            locks: Taking::NONE,
            marks: 0,
        };
        Sections {
            open: [unused; 16],
            depth: 0,
        }
    }

    /// The same sections once more.
    pub fn copied(&self) -> Sections
        ensures { result ≡ self.now }
    {
        Sections {
            open: self.open,
            depth: self.depth,
        }
    }

    /// The open sections, the outermost first.
    pub fn as_slice(&self) -> &[OpenSection]
        ensures open { result.now ≡ self.now }
        ensures few { length self.now ≤ 16 }
    {
        &self.open[..self.depth]
    }

    /// How many sections are open, at most 16.
    pub fn depth(&self) -> u32
        ensures depth { result ≡ length self.now }
        ensures few { result ≤ 16 }
    {
        self.as_slice().len() as u32
    }

    /// Opens a section inside the others, of which there are fewer than 16.
    pub fn push(&mut self, section: OpenSection)
        requires { length self.old < 16 }
        ensures { self.new ≡ self.old ++ section ∷ [] }
    {
        self.open[self.depth] = section;
        self.depth += 1;
    }

    /// Closes the innermost section, and answers it; `None` exactly where none is open.
    pub fn pop(&mut self) -> Option<OpenSection>
        ensures some { (section : OpenSection) → result ≡ Some section → self.old ≡ self.new ++ section ∷ [] }
        ensures none { result ≡ None → (self.old ≡ []) × (self.new ≡ []) }
    {
        if self.depth == 0 {
            return None;
        }
        self.depth -= 1;
        Some(self.open[self.depth])
    }

    /// The sections have let their locks go, and each counts that number of marked calls more.
    pub fn suspend(&mut self, marks: u32)
        ensures { self.new ≡ map (suspended marks) self.old }
    {
        suspend_each(&mut self.open[..self.depth], marks);
    }
}

/// Sections let their locks go, and each counts that number of marked calls more.
fn suspend_each(sections: &mut [OpenSection], marks: u32)
    ensures { sections.new ≡ map (suspended marks) sections.old }
{
    for section in sections.iter_mut() {
        *section = section.suspended(marks);
    }
}
