ghost use Rattle.std.specs.Prelude.{◌≡◌, ◌∷◌, ◌++◌, ◌≤◌, ◌+◌, [], ℕ, List, true, false, IfOk, IfErr, OnOk, Ok, Err, length, position, MatchResult};
ghost use Rattle.std.specs.List.{All};
ghost use Rattle.geom_core.specs.declared.limits.TheConstants.{MAX_OBJ_BYTES};
ghost use Rattle.geom_core.specs.Limits.{IsScale};
ghost use Rattle.obj_source.specs.Lines.{words_of, without_return};
ghost use Rattle.obj_source.specs.Mesh.{MeshSoFar, mesh, with_line};
ghost use Rattle.obj_source.specs.Scanner.{HasTaken, HasRoom, IsFirstFault, IsReady, LineRead, LineJudged, OnLineFault, RefusedAtEnd, StandsAt, StandsOn, ends_word, ends_token, kept};

use crate::faults::ObjFault;
use crate::mesh_builder::MeshBuilder;
use geom_core::Tri;
use span_io::{Consumer, Fed};
use std::alloc::{AllocError, Global};

/// The most bytes of the first word of a line that is a `v` or an `f` alone, and perhaps a CR.
const MAX_KEYWORD_BYTES: usize = 2;

/// Which part of a line is open.
#[derive(Clone, Copy, Debug)]
pub(crate) enum ScanState {
    /// What comes before the end of the first word.
    First,
    /// What comes after the first word.
    Later,
    /// A comment, or what doesn't matter any more.
    Skipping,
}

/// A text so far: its lines and the words of the open one went into a builder.
#[derive(Drop)]
pub(crate) struct ObjScanner {
    builder: MeshBuilder,
    /// The open word, as far as it came.
    word: Vec<u8>,
    state: ScanState,
}

/// Whether a word has ended before this byte.
fn ends_word(byte: u8) -> bool
    ensures { result ≡ ends_word byte }
{
    matches!(byte, b' ' | b'\t' | b'#' | b'\n')
}

impl ObjScanner {
    /// Before any byte.
    pub(crate) fn of(alloc: Global, scale: u32) -> ObjScanner
        requires scale_range { IsScale scale }
        ensures taken { HasTaken result scale [] }
        ensures scale { result.builder.scale ≡ scale }
    {
        ObjScanner {
            builder: MeshBuilder::of(alloc, scale),
            word: Vec::new(alloc),
            state: ScanState::First,
        }
    }

    /// Takes in some bytes more, up to the LF of the first line with a fault.
    pub(crate) fn scan(&mut self, piece: &[u8]) -> Result<(), ObjFault>
        requires { HasRoom self.old (length piece.now) }
        ensures taken { OnOk result ((scale : ℕ) (text : List ℕ) → HasTaken self.old scale text →
            HasTaken self.new scale (text ++ piece.now)) }
        ensures refused { IfErr result (λ fault. (scale : ℕ) (text : List ℕ) →
            HasTaken self.old scale text →
            OnLineFault (IsFirstFault scale (text ++ piece.now)) fault) }
    {
        let mut rest = piece;
        'marks: while let Some(at) = self.next_mark(rest) {
            self.push_bytes(&rest[..at])?;
            self.end_token(rest[at])?;
            rest = &rest[at + 1..];
        }
        self.push_bytes(rest)?;
        Ok(())
    }

    /// Where the open part ends.
    fn next_mark(&self, rest: &[u8]) -> Option<usize>
        ensures { result ≡ position (ends_token self.now.state) rest.now }
    {
        match self.state {
            ScanState::Skipping => rest.iter().position(|byte| *byte == b'\n'),
            ScanState::First | ScanState::Later => rest.iter().position(|byte| ends_word(*byte)),
        }
    }

    /// Takes in bytes that don't end the open part.
    fn push_bytes(&mut self, span: &[u8]) -> Result<(), AllocError>
        ensures { OnOk result ((scale : ℕ) (text : List ℕ) → HasTaken self.old scale text →
            All (λ b. ends_token self.old.state b ≡ false) span.now →
            HasTaken self.new scale (text ++ span.now)) }
    {
        match self.state {
            ScanState::Skipping => {}
            ScanState::First if self.word.len().saturating_add(span.len()) > MAX_KEYWORD_BYTES =>
                self.skip_line(),
            _ => self.word.extend_from_slice(span)?,
        }
        Ok(())
    }

    /// Passes the open line over, whose first word is too long for a letter alone.
    fn skip_line(&mut self)
        ensures builder { (scale : ℕ) (mesh_so_far : MeshSoFar) (line : ℕ) (first : List ℕ)
            (more : List (List ℕ)) → StandsOn self.old.builder scale mesh_so_far line [] →
            2 ≤ length first →
            StandsOn self.new.builder scale mesh_so_far line (first ∷ more) }
        ensures ready { (line corners : ℕ) → IsReady self.old.builder line corners →
            IsReady self.new.builder line corners }
        ensures word { self.new.word.items ≡ [] }
        ensures state { self.new.state ≡ ScanState.Skipping }
    {
        self.builder.skip_line();
        self.word.clear();
        self.state = ScanState::Skipping;
    }

    /// Takes in the byte after a word.
    fn end_token(&mut self, mark: u8) -> Result<(), ObjFault>
        requires room { HasRoom self.old 1 }
        requires mark { ends_word mark ≡ true }
        ensures taken { OnOk result ((scale : ℕ) (text : List ℕ) → HasTaken self.old scale text →
            HasTaken self.new scale (text ++ mark ∷ [])) }
        ensures refused { IfErr result (λ fault. (scale : ℕ) (text : List ℕ) →
            HasTaken self.old scale text →
            OnLineFault (IsFirstFault scale (text ++ mark ∷ [])) fault) }
    {
        match mark {
            b'\n' => self.end_line(),
            b'#' => {
                self.end_word()?;
                self.state = ScanState::Skipping;
                Ok(())
            }
            _ => Ok(self.end_word()?),
        }
    }

    /// Ends the open word, if it has a byte.
    fn end_word(&mut self) -> Result<(), AllocError>
        requires { IsReady self.old.builder (MAX_OBJ_BYTES + 1) MAX_OBJ_BYTES }
        ensures mesh_so_far { OnOk result ((scale : ℕ) (mesh_so_far : MeshSoFar) (line : ℕ)
            (words : List (List ℕ)) →
            StandsAt self.old.state self.old.builder scale mesh_so_far line words →
            StandsAt self.new.state self.new.builder scale mesh_so_far line
            (words ++ kept self.old.word.items)) }
        ensures idle { self.old.word.items ≡ [] → OnOk result
            ((self.new.builder ≡ self.old.builder) × (self.new.state ≡ self.old.state)) }
        ensures ready { OnOk result ((line corners : ℕ) → IsReady self.old.builder line corners →
            IsReady self.new.builder line (corners + 1)) }
        ensures word { OnOk result (self.new.word.items ≡ []) }
    {
        if self.word.is_empty() {
            return Ok(());
        }
        self.builder.push_word(&self.word)?;
        self.word.clear();
        self.state = if self.builder.ignores_rest() {
            ScanState::Skipping
        } else {
            ScanState::Later
        };
        Ok(())
    }

    /// Ends the open line, and judges it.
    fn end_line(&mut self) -> Result<(), ObjFault>
        requires { IsReady self.old.builder (MAX_OBJ_BYTES + 1) MAX_OBJ_BYTES }
        ensures judged { (scale : ℕ) (mesh_so_far : MeshSoFar) (line : ℕ) (begun : List ℕ) →
            LineRead self.old.state self.old.builder self.old.word.items
            scale mesh_so_far line begun →
            MatchResult result
            (λ _. LineJudged self.new.builder scale mesh_so_far line (words_of begun))
            (OnLineFault (λ fault. with_line scale mesh_so_far line (words_of begun) ≡ Err fault)) }
        ensures ready { OnOk result ((line corners : ℕ) → IsReady self.old.builder line corners →
            IsReady self.new.builder (line + 1) 0) }
        ensures word { OnOk result (self.new.word.items ≡ []) }
        ensures state { OnOk result (self.new.state ≡ ScanState.First) }
    {
        self.drop_return();
        self.end_word()?;
        self.builder.end_line()?;
        self.state = ScanState::First;
        Ok(())
    }

    /// Drops the CR at the end of the open word, if there is one.
    fn drop_return(&mut self)
        ensures word { self.new.word.items ≡ without_return self.old.word.items }
        ensures builder { self.new.builder ≡ self.old.builder }
        ensures state { self.new.state ≡ self.old.state }
    {
        if self.word.last() == Some(&b'\r') {
            let _ = self.word.pop();
        }
    }

    /// The triangles of the whole text.
    pub(crate) fn end(mut self) -> Result<Vec<Tri>, ObjFault>
        requires { HasRoom self 0 }
        ensures listed { IfOk result (λ tris. (scale : ℕ) (text : List ℕ) →
            HasTaken self scale text → length text ≤ MAX_OBJ_BYTES →
            mesh scale text ≡ Ok tris.items) }
        ensures refused { IfErr result (λ fault. (scale : ℕ) (text : List ℕ) →
            HasTaken self scale text → length text ≤ MAX_OBJ_BYTES → RefusedAtEnd scale text fault) }
    {
        self.end_line()?;
        let ObjScanner { builder, .. } = self;
        let triangles = builder.into_triangles();
        if triangles.is_empty() {
            Err(ObjFault::Empty)
        } else {
            Ok(triangles)
        }
    }
}

impl Consumer for ObjScanner {
    ghost use Rattle.geom_core.specs.declared.limits.TheConstants.{MAX_OBJ_BYTES};
    ghost use Rattle.obj_source.specs.Scanner.{HasTaken, IsFirstFault, OnLineFault};

    type Outcome = ObjFault;

    ghost byte_limit = { MAX_OBJ_BYTES };

    ghost has_fed = { λ start now bytes. HasTaken now start.builder.scale bytes };

    ghost stops = { λ start bytes fault.
        OnLineFault (IsFirstFault start.builder.scale bytes) fault };

    fn feed(&mut self, piece: &[u8]) -> Fed<ObjFault> {
        match self.scan(piece) {
            Ok(()) => Fed::Continue,
            Err(fault) => Fed::Stop(fault),
        }
    }
}
