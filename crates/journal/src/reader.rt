//! Reads a file block by block.
ghost use Rattle.std.specs.Prelude.{◌≡◌, ◌≤◌, ◌+◌, ◌++◌, ◌∷◌, [], List, ℕ, length, take, IfOk, IfErr, OnOk, IsErrOf, true, false};
ghost use Rattle.std.specs.List.{list_any};
ghost use Rattle.journal.specs.Text.{is_line_feed, is_torn, is_commit, has_noise, sum_after, journal_text, AreGroups};
ghost use Rattle.journal.specs.Reading.{found};

use crate::JournalError;
use crate::line_head::{add_head, end_of, sum_part};
use crate::lines::{
    cut_line, has_noise, is_commit, is_commit_of, is_elsewhere, is_overlong, is_torn,
};
use crate::sum::{add_to, hasher_of, take_sum};
use sha2::Sha256;
use std::alloc::Global;

/// How far a file is whole groups, and the last sum of these.
#[derive(Clone, Copy, Drop)]
pub struct Sound {
    pub end: usize,
    pub last: [u8; 64],
}

/// What is known of a file between two of its blocks. It has the size of one line's head, however
/// long the line is.
#[derive(Drop)]
pub struct Reader {
    last: [u8; 64],
    end: usize,
    sum: [u8; 64],
    /// The commit line of the lines that wait was read once.
    once: bool,
    /// A line had a zero: nothing behind it is committed.
    is_over: bool,
    hasher: Sha256,
    /// The number of bytes that were read.
    at: usize,
    /// The line that goes on.
    head: Vec<u8>,
    is_torn: bool,
}

impl Reader {
    ghost use Rattle.journal.specs.Reads.{HasRead};

    /// Nothing was read yet of a file with this first sum.
    pub fn new(alloc: Global, first: &[u8; 64]) -> Reader
        ensures { HasRead first.now [] result }
    {
        let last = *first;
        let hasher = hasher_of(first);
        Reader {
            last,
            end: 0,
            sum: last,
            once: false,
            is_over: false,
            hasher,
            at: 0,
            head: Vec::new(alloc),
            is_torn: false,
        }
    }

    // Goes on with a line.
    fn add(&mut self, bytes: &[u8]) -> Result<(), JournalError>
        ensures ok { OnOk result ((first text : List ℕ) → HasRead first text self.old
            → list_any is_line_feed bytes.now ≡ false
            → HasRead first (text ++ bytes.now) self.new) }
        ensures damaged { IsErrOf result JournalError.Damaged → has_noise bytes.now ≡ true }
    {
        if has_noise(bytes) {
            return Err(JournalError::Damaged);
        }
        let Some(at) = end_of(self.at, bytes) else {
            return Err(JournalError::DiskFailed);
        };
        add_head(&mut self.head, bytes)?;
        let has_zero = is_torn(bytes);
        let is_torn = self.is_torn | has_zero;
        sum_part(&mut self.hasher, &self.head, is_torn, bytes);
        self.is_torn = is_torn;
        self.at = at;
        Ok(())
    }

    // A new line begins.
    fn begin_line(&mut self) -> Result<(), JournalError>
        ensures place { OnOk result (self.new.at ≡ self.old.at + 1) }
        ensures empty { OnOk result ((self.new.head.items ≡ []) × (self.new.is_torn ≡ false)) }
        ensures same { (self.new.last ≡ self.old.last) × (self.new.end ≡ self.old.end)
            × (self.new.sum ≡ self.old.sum)
            × (self.new.once ≡ self.old.once) × (self.new.is_over ≡ self.old.is_over)
            × (self.new.hasher ≡ self.old.hasher) }
        ensures blind { IsErrOf result JournalError.Damaged → ⊥ }
    {
        let Some(at) = self.at.checked_add(1) else {
            return Err(JournalError::DiskFailed);
        };
        self.at = at;
        self.head.clear();
        self.is_torn = false;
        Ok(())
    }

    // Behind a line of which a byte is lost only commit lines of groups elsewhere are damage.
    fn pass_over(&mut self) -> Result<(), JournalError>
        ensures ok { OnOk result
            (self.old.is_over ≡ true → (first text : List ℕ) → HasRead first text self.old
            → HasRead first (text ++ 10 ∷ []) self.new) }
        ensures damaged { IsErrOf result JournalError.Damaged → self.old.is_over ≡ true
            → (first text rest : List ℕ)
            → HasRead first text self.old → (found first (text ++ 10 ∷ rest)).is_damaged ≡ true }
    {
        let is_there = is_elsewhere(self.end, &self.head);
        let is_stray = !self.is_torn & is_there;
        if is_stray {
            return Err(JournalError::Damaged);
        }
        self.begin_line()?;
        Ok(())
    }

    // The first line of which a byte is lost ends what is committed.
    fn stop(&mut self) -> Result<(), JournalError>
        ensures ok { OnOk result
            (self.old.is_over ≡ false → self.old.is_torn ≡ true → (first text : List ℕ)
            → HasRead first text self.old → HasRead first (text ++ 10 ∷ []) self.new) }
        ensures damaged { IsErrOf result JournalError.Damaged → self.old.is_over ≡ false
            → self.old.is_torn ≡ true
            → (first text rest : List ℕ) → HasRead first text self.old
            → (found first (text ++ 10 ∷ rest)).is_damaged ≡ true }
    {
        if is_overlong(&self.head) {
            return Err(JournalError::Damaged);
        }
        self.begin_line()?;
        self.is_over = true;
        Ok(())
    }

    // The second commit line ends a group.
    fn end_group(&mut self) -> Result<(), JournalError>
        ensures ok { OnOk result
            (self.old.is_over ≡ false → self.old.is_torn ≡ false → self.old.once ≡ true
            → (first text : List ℕ) → HasRead first text self.old
            → HasRead first (text ++ 10 ∷ []) self.new) }
        ensures damaged { IsErrOf result JournalError.Damaged → self.old.is_over ≡ false
            → self.old.is_torn ≡ false
            → self.old.once ≡ true → (first text rest : List ℕ) → HasRead first text self.old
            → (found first (text ++ 10 ∷ rest)).is_damaged ≡ true }
    {
        if !is_commit_of(&self.head, &self.sum, self.end) {
            return Err(JournalError::Damaged);
        }
        self.begin_line()?;
        self.last = self.sum;
        self.end = self.at;
        self.once = false;
        add_to(&mut self.hasher, &self.last);
        Ok(())
    }

    // The first commit line has the sum of the lines that wait.
    fn commit_once(&mut self) -> Result<(), JournalError>
        ensures ok { OnOk result
            (self.old.is_over ≡ false → self.old.is_torn ≡ false → self.old.once ≡ false
            → is_commit self.old.head.items ≡ true → (first text : List ℕ)
            → HasRead first text self.old
            → HasRead first (text ++ 10 ∷ []) self.new) }
        ensures damaged { IsErrOf result JournalError.Damaged → self.old.is_over ≡ false
            → self.old.is_torn ≡ false
            → self.old.once ≡ false → is_commit self.old.head.items ≡ true
            → (first text rest : List ℕ)
            → HasRead first text self.old → (found first (text ++ 10 ∷ rest)).is_damaged ≡ true }
    {
        let sum = take_sum(&mut self.hasher);
        if !is_commit_of(&self.head, &sum, self.end) {
            return Err(JournalError::Damaged);
        }
        self.begin_line()?;
        self.sum = sum;
        self.once = true;
        Ok(())
    }

    // Any other line waits for its commit line.
    fn wait(&mut self) -> Result<(), JournalError>
        ensures ok { OnOk result
            (self.old.is_over ≡ false → self.old.is_torn ≡ false → self.old.once ≡ false
            → is_commit self.old.head.items ≡ false → (first text : List ℕ)
            → HasRead first text self.old
            → HasRead first (text ++ 10 ∷ []) self.new) }
        ensures blind { IsErrOf result JournalError.Damaged → ⊥ }
    {
        add_to(&mut self.hasher, b"\n");
        self.begin_line()?;
        Ok(())
    }

    // A line feed ends the line.
    fn end_line(&mut self) -> Result<(), JournalError>
        ensures ok { OnOk result
            ((first text : List ℕ) → HasRead first text self.old
            → HasRead first (text ++ 10 ∷ []) self.new) }
        ensures damaged { IsErrOf result JournalError.Damaged → (first text rest : List ℕ)
            → HasRead first text self.old
            → (found first (text ++ 10 ∷ rest)).is_damaged ≡ true }
    {
        if self.is_over {
            self.pass_over()?;
            return Ok(());
        }
        if self.is_torn {
            self.stop()?;
            return Ok(());
        }
        if self.once {
            self.end_group()?;
            return Ok(());
        }
        if is_commit(&self.head) {
            self.commit_once()?;
            return Ok(());
        }
        self.wait()?;
        Ok(())
    }

    // Reads a line and its line feed.
    fn read_line(&mut self, line: &[u8]) -> Result<(), JournalError>
        ensures ok { OnOk result
            (list_any is_line_feed line.now ≡ false → (first text : List ℕ)
            → HasRead first text self.old
            → HasRead first (text ++ (line.now ++ 10 ∷ [])) self.new) }
        ensures damaged { IsErrOf result JournalError.Damaged
            → list_any is_line_feed line.now ≡ false
            → (first text rest : List ℕ) → HasRead first text self.old
            → (found first (text ++ (line.now ++ 10 ∷ rest))).is_damaged ≡ true }
    {
        self.add(line)?;
        self.end_line()?;
        Ok(())
    }

    /// Reads the next block. `Damaged` tells that no bytes behind it make the file sound. After an
    /// error nothing more may be asked.
    pub fn read(&mut self, block: &[u8]) -> Result<(), JournalError>
        ensures ok { OnOk result
            ((first text : List ℕ) → HasRead first text self.old
            → HasRead first (text ++ block.now) self.new) }
        ensures damaged { IsErrOf result JournalError.Damaged → (first text rest : List ℕ)
            → HasRead first text self.old
            → (found first (text ++ (block.now ++ rest))).is_damaged ≡ true }
    {
        let mut rest = block;
        while let Some((line, later)) = cut_line(rest) {
            self.read_line(line)?;
            rest = later;
        }
        self.add(rest)?;
        Ok(())
    }

    /// Whether the blocks hold a group, whatever follows them.
    pub fn has_group(&self) -> bool
        ensures some { result ≡ true → (first text rest : List ℕ) → HasRead first text self.now
            → (found first (text ++ rest)).groups ≡ [] → ⊥ }
        ensures none { result ≡ false → (first text : List ℕ) → HasRead first text self.now
            → (found first text).groups ≡ [] }
    {
        self.end > 0
    }

    /// What the blocks hold as one file. What follows its groups is no damage where a write that
    /// was never acknowledged may have left it.
    pub fn end(&self) -> Result<Sound, JournalError>
        ensures sound { IfOk result (λ sound. (first text : List ℕ) → HasRead first text self.now
            → (found first text).is_damaged ≡ false) }
        ensures groups { IfOk result (λ sound. (first text : List ℕ) → HasRead first text self.now
            → AreGroups (found first text).groups × (sound.end ≤ length text)
            × (take sound.end text ≡ journal_text first (found first text).groups)
            × (sound.last ≡ sum_after first (found first text).groups)) }
        ensures damaged { IfErr result
            (λ error. (error ≡ JournalError.Damaged) × ((first text : List ℕ)
            → HasRead first text self.now → (found first text).is_damaged ≡ true)) }
    {
        let goes_on = is_overlong(&self.head);
        let is_long = !self.is_over & goes_on;
        if is_long {
            return Err(JournalError::Damaged);
        }
        Ok(Sound {
            end: self.end,
            last: self.last,
        })
    }
}
