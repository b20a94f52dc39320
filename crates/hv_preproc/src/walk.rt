//! The walk through the files of a bundle.
ghost use Rattle.std.specs.Prelude.{◌≡◌, ◌&&◌, ◌++◌, ◌∷◌, [], ℕ, Bool, List, IfErr, IfNone, IfOk, IfSome, OnOk};
ghost use Rattle.hv_base.specs.declared.why.Why.TheVariants.{OpenComment};
ghost use Rattle.hv_cond.specs.Diagram.{IsNode, Keeps, holds};
ghost use Rattle.hv_directives.specs.Values.{piece_of};
ghost use Rattle.hv_macros.specs.Table.{meaning_in};
ghost use Rattle.hv_plain.specs.declared.episode.RunEnd.TheVariants.{Line};
ghost use Rattle.hv_plainpp.specs.Files.{Entered, File};
ghost use Rattle.hv_plainpp.specs.Groups.{is_processed};
ghost use Rattle.hv_plainpp.specs.Preprocessing.{entered};
ghost use Rattle.hv_plainpp.specs.Reading.{refusal};
ghost use Rattle.hv_preproc.specs.working.Faults.{IfStops};
ghost use Rattle.hv_preproc.specs.working.Keys.{IsOfInitial, Rises, reached, tokens_in};
ghost use Rattle.hv_preproc.specs.working.OpenGroups.{AreGroups, groups_in};
ghost use Rattle.hv_preproc.specs.working.Openings.{IsSameFile};
ghost use Rattle.hv_preproc.specs.working.Parts.{ArePages, AreRegrouped, EndsNoLine, IsIncluded, IsOf, IsPageOf, IsReady, groups_after, piece_part, reader_at, text_part};
ghost use Rattle.hv_preproc.specs.working.Walk.{IsSound, IsUnit, Reads, Stops};
ghost use Rattle.hv_texts.specs.Readings.{IsOriginOf};

use crate::action::Inclusion;
use crate::fault::WalkFault;
use crate::open_file::OpenFile;
use crate::page::{Content, Page, Pages};
use crate::unit::Unit;
use hv_base::{List, Memory, Place, Why};
use hv_cond::{Cond, Store};
use hv_directives::{Directive, Piece, directive_on};
use hv_plain::RunEnd;
use hv_texts::{Came, expand_text};
use hv_toks::PpTok;
use std::alloc::Global;

/// Reads the text lines between two directives, in the configurations that process them.
fn read_text(
    store: &mut Store,
    unit: &mut Unit,
    file: &OpenFile<'_>,
    run: &[PpTok],
    ends: RunEnd,
) -> Result<(), WalkFault>
    requires groups { AreGroups store.old file.now.groups }
    requires unit { IsUnit store.old unit.old }
    requires ends { ends ≡ Line → ⊥ }
    ensures keeps { Keeps store.old store.new }
    ensures unit { OnOk result (IsUnit store.new unit.new) }
    ensures read { OnOk result ((at : Entered) (low high : ℕ) → IsOriginOf file.now.origin at
        → Rises low high run.now → IsSound store.old unit.old (reached at low)
        → Reads store.old store.new unit.old unit.new (reached at low) (reached at high)
        file.now.groups.cond
        (λ values. text_part at (groups_in store.old file.now.groups values) run.now ends)) }
    ensures stops { IfErr result (IfStops (λ place conds. (at : Entered) (low high : ℕ)
        → IsOriginOf file.now.origin at → Rises low high run.now
        → Stops store.old store.new unit.old (reached at low) file.now.groups.cond
        (λ values. text_part at (groups_in store.old file.now.groups values) run.now ends)
        place conds)) }
{
    let cond = file.processed(store, unit)?;
    if store.is_false(cond) {
        return Ok(());
    }
    let came = expand_text(
        file.alloc,
        store,
        &unit.table,
        &file.origin,
        run,
        ends,
        cond,
    )?;
    let Came {
        given,
        good: _,
        value: (),
        failing,
    } = came;
    Ok(unit.take_in(store, given, failing.as_slice())?)
}

/// Reads a piece of a file, the reading of an included file aside: that is answered.
fn read_piece<'p, 'a>(
    store: &mut Store,
    unit: &mut Unit,
    pages: &'p Pages<'a>,
    file: &mut OpenFile<'a>,
    piece: &Piece<'a>,
    left: usize,
) -> Result<Option<Inclusion<'p, 'a>>, WalkFault>
    requires groups { AreGroups store.old file.old.groups }
    requires rises { (high : ℕ) × Rises 0 high (tokens_in (piece_of piece.now)) }
    requires ends { EndsNoLine (piece_of piece.now) }
    requires ready { IsReady store.old unit.old file.old.origin.stack (piece_of piece.now) }
    requires file { ¬ IsOfInitial file.old.origin.file }
    requires pages { ArePages pages.now }
    ensures keeps { Keeps store.old store.new }
    ensures unit { IfOk result (λ answer. IsUnit store.new unit.new) }
    ensures file { IfOk result (λ answer. IsSameFile file.old file.new) }
    ensures groups { IfOk result (λ answer. AreGroups store.new file.new.groups) }
    ensures regrouped { IfOk result (λ answer. (at : Entered)
        → IsOf file.old.name.now file.old.origin at
        → AreRegrouped store.old store.new file.old.groups file.new.groups unit.new.live
        (λ values. groups_after at (meaning_in store.old unit.old.table values)
        (piece_of piece.now))) }
    ensures none { IfOk result (λ answer. IfNone answer ((at : Entered) (low high : ℕ)
        → IsOf file.old.name.now file.old.origin at
        → Rises low high (tokens_in (piece_of piece.now))
        → IsSound store.old unit.old (reached at low)
        → Reads store.old store.new unit.old unit.new (reached at low) (reached at high)
        file.old.groups.cond (λ values. piece_part pages.now.bundle.now
        (reader_at left pages.now.bundle.now) at (groups_in store.old file.old.groups values)
        (piece_of piece.now)))) }
    ensures some { IfOk result (λ answer. IfSome answer (λ inner. (at : Entered)
        → IsOf file.old.name.now file.old.origin at
        → IsIncluded pages.now.bundle.now at (piece_of piece.now) left
        inner.page.now inner.stack)) }
    ensures unchanged { IfOk result (λ answer. IfSome answer
        (λ inner. (unit.new ≡ unit.old) × (file.new ≡ file.old))) }
    ensures cond { IfOk result (λ answer. IfSome answer (λ inner. IsNode store.new inner.cond
        × ((values : List Bool) → holds store.new inner.cond values
        ≡ ((holds store.old file.old.groups.cond values
        && is_processed (groups_in store.old file.old.groups values))
        && holds store.old unit.old.live values)))) }
    ensures stops { IfErr result (IfStops (λ place conds. (at : Entered) (low high : ℕ)
        → IsOf file.old.name.now file.old.origin at
        → Rises low high (tokens_in (piece_of piece.now))
        → Stops store.old store.new unit.old (reached at low) file.old.groups.cond
        (λ values. piece_part pages.now.bundle.now (reader_at left pages.now.bundle.now) at
        (groups_in store.old file.old.groups values) (piece_of piece.now)) place conds)) }
{
    match *piece {
        Piece::Text { run, ends } => {
            read_text(store, unit, file, run, ends)?;
            Ok(None)
        }
        Piece::Directive { hash, line } => match directive_on(line) {
            Directive::Conditional(conditional) => {
                file.regroup(store, unit, hash, conditional)?;
                Ok(None)
            }
            Directive::Action(action) => { Ok(file.obey(store, unit, pages, hash, action, left)?) }
        },
    }
}

/// Refuses the configurations of a condition for a comment of a file that isn't closed.
fn refuse_comment(
    store: &mut Store,
    unit: &mut Unit,
    file: u32,
    stack: List<u64>,
    offset: u64,
    cond: Cond,
) -> Result<(), Memory>
    requires cond { IsNode store.old cond }
    requires unit { IsUnit store.old unit.old }
    ensures keeps { Keeps store.old store.new }
    ensures unit { OnOk result (IsUnit store.new unit.new) }
    ensures read { OnOk result ((here : List ℕ) → IsSound store.old unit.old here
        → Reads store.old store.new unit.old unit.new here here cond
        (λ values macros. refusal OpenComment
        (record { stack = stack; file = file; offset = offset }))) }
{
    let place = Place {
        stack,
        file,
        offset,
    };
    unit.refuse(store, &place, Why::OpenComment, cond)
}

/// Reads a file, to which these `#include` directives led, in the configurations of a condition,
/// where so many more includes may be open.
pub(crate) fn read_file<'a>(
    alloc: Global,
    store: &mut Store,
    unit: &mut Unit,
    pages: &Pages<'a>,
    page: &Page<'a>,
    stack: List<u64>,
    cond: Cond,
    left: usize,
) -> Result<(), WalkFault>
    requires cond { IsNode store.old cond }
    requires sound { IsSound store.old unit.old (stack ++ 0 ∷ []) }
    requires pages { ArePages pages.now }
    requires page { (file : File) × IsPageOf page.now file }
    ensures keeps { Keeps store.old store.new }
    ensures unit { OnOk result (IsUnit store.new unit.new) }
    ensures read { OnOk result ((file : File) → IsPageOf page.now file → (high : ℕ)
        × Reads store.old store.new unit.old unit.new (stack ++ 0 ∷ []) (stack ++ high ∷ []) cond
        (λ values. entered left pages.now.bundle.now (record { file = file; stack = stack }))) }
    ensures stops { IfErr result (IfStops (λ place conds. (file : File) → IsPageOf page.now file
        → Stops store.old store.new unit.old (stack ++ 0 ∷ []) cond
        (λ values. entered left pages.now.bundle.now (record { file = file; stack = stack }))
        place conds)) }
{
    let pieces = match &page.content {
        Content::OpenComment(offset) => {
            return Ok(refuse_comment(store, unit, page.number, stack, *offset, cond)?);
        }
        Content::Pieces(pieces) => pieces,
    };
    let mut file = OpenFile::new(alloc, page, stack, cond);
    for piece in pieces.iter() {
        if let Some(inner) = read_piece(store, unit, pages, &mut file, piece, left)? {
            let Inclusion { page, stack, cond } = inner;
            read_file(alloc, store, unit, pages, page, stack, cond, left - 1)?;
        }
    }
    Ok(file.end(store, unit)?)
}
