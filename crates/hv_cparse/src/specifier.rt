//! Tokens of specifiers (6.7.1 to 6.7.4).
ghost use Rattle.std.specs.Prelude.{◌≡◌, IfOk, None};
ghost use Rattle.hv_cparse.specs.working.Steps as steps;
ghost use Rattle.hv_cparse.specs.working.Steps.{IsMoved};

use crate::class::{Class, Specifier, specifier_of};
use crate::control::Control;
use crate::frame::{At, Frame, Mark, Mode, Owner};
use hv_base::{Memory, Punct};

impl Control {
    /// Takes a token that is a specifier or begins one.
    pub(crate) fn specify(
        &mut self,
        owner: Owner,
        specifier: Specifier,
    ) -> Result<Option<Mark>, Memory>
        ensures { IfOk result (λ mark. IsMoved (steps.begun_by specifier owner self.old.frames)
            mark self.new.frames self.new.at) }
    {
        let role = self.frames.role();
        let depth = self.frames.depth();
        let at = match specifier {
            Specifier::Word(typed) => At::Words(owner, typed),
            Specifier::Compound => {
                self.frames.push(Frame::Specified(owner))?;
                At::AfterCompound
            }
            Specifier::Enumeration => {
                self.frames.push(Frame::Specified(owner))?;
                At::AfterEnum
            }
        };
        Ok(self.plainly(role, at, depth))
    }

    /// A token after specifiers that is none: it begins a declarator, or stands after none.
    fn end_words(&mut self, owner: Owner, class: Class) -> Result<Option<Mark>, Memory>
        ensures { IfOk result (λ mark. IsMoved (steps.words_ended owner self.old.frames class) mark
            self.new.frames self.new.at) }
    {
        match owner {
            Owner::TypeName => {
                self.frames.push(Frame::Owned(Owner::TypeName))?;
                self.take_pointing(Mode::Abstract, 0, class)
            }
            Owner::Parameter => {
                self.frames.push(Frame::Owned(Owner::Parameter))?;
                self.take_pointing(Mode::Either, 0, class)
            }
            Owner::Member => {
                self.frames.push(Frame::OwnedMembers)?;
                self.take_pointing(Mode::Named, 0, class)
            }
            Owner::Declaration => self.end_declaration_words(class),
        }
    }

    /// A token after at least one specifier.
    pub(crate) fn take_words(
        &mut self,
        owner: Owner,
        typed: bool,
        class: Class,
    ) -> Result<Option<Mark>, Memory>
        ensures { IfOk result (λ mark. IsMoved (steps.step_words owner typed self.old.frames class)
            mark self.new.frames self.new.at) }
    {
        match specifier_of(owner, typed, class) {
            Some(specifier) => self.specify(owner, specifier),
            None => self.end_words(owner, class),
        }
    }

    /// After a specifier that the token may end, in others.
    fn end_word(&mut self, class: Class) -> Result<Option<Mark>, Memory>
        ensures { IfOk result (λ mark. IsMoved (steps.ended_word self.old.frames class) mark
            self.new.frames self.new.at) }
    {
        match self.frames.pop() {
            Some(Frame::Specified(owner)) => self.take_words(owner, true, class),
            _ => Ok(None),
        }
    }

    /// Opens the braces of a structure, union or enumeration.
    fn open_brace(&mut self, frame: Frame, at: At) -> Result<Option<Mark>, Memory>
        ensures { IfOk result (λ mark. IsMoved (steps.brace_opened frame at self.old.frames) mark
            self.new.frames self.new.at) }
    {
        let role = self.frames.role();
        self.frames.push(frame)?;
        let depth = self.frames.depth();
        Ok(self.plainly(role, at, depth))
    }

    /// A name that goes on in a specifier.
    fn word(&mut self, at: At) -> Option<Mark>
        ensures { IsMoved (steps.word_at at self.old.frames) result self.new.frames self.new.at }
    {
        let role = self.frames.role();
        let depth = self.frames.depth();
        self.plainly(role, at, depth)
    }

    /// A token after `struct` or `union` (6.7.2.1).
    pub(crate) fn take_compound(&mut self, class: Class) -> Result<Option<Mark>, Memory>
        ensures { IfOk result (λ mark. IsMoved (steps.step_compound self.old.frames class) mark
            self.new.frames self.new.at) }
    {
        match class {
            Class::Name => Ok(self.word(At::AfterTag)),
            Class::Sign(Punct::LeftBrace) => {
                self.open_brace(Frame::Body(false), At::MemberStart)
            }
            _ => Ok(None),
        }
    }

    /// A token after the tag of a structure or union (6.7.2.1, 6.7.2.3).
    pub(crate) fn take_tag(&mut self, class: Class) -> Result<Option<Mark>, Memory>
        ensures { IfOk result (λ mark. IsMoved (steps.step_tag self.old.frames class) mark
            self.new.frames self.new.at) }
    {
        match class {
            Class::Sign(Punct::LeftBrace) => {
                self.open_brace(Frame::Body(false), At::MemberStart)
            }
            _ => self.end_word(class),
        }
    }

    /// The `}` of a structure or union with at least one member (6.7.2.1).
    fn end_body(&mut self, class: Class) -> Option<Mark>
        ensures { IsMoved (steps.body_ended self.old.frames class) result self.new.frames
            self.new.at }
    {
        let Class::Sign(Punct::RightBrace) = class else {
            return None;
        };
        let depth = self.frames.depth();
        match self.frames.pop() {
            Some(Frame::Body(true)) => self.specified(depth),
            _ => None,
        }
    }

    /// A token before a member, or the `}` (6.7.2.1).
    pub(crate) fn take_member(&mut self, class: Class) -> Result<Option<Mark>, Memory>
        ensures { IfOk result (λ mark. IsMoved (steps.step_member self.old.frames class) mark
            self.new.frames self.new.at) }
    {
        match specifier_of(Owner::Member, false, class) {
            Some(specifier) => self.specify(Owner::Member, specifier),
            None => Ok(self.end_body(class)),
        }
    }

    /// A token after `enum` (6.7.2.2).
    pub(crate) fn take_enum(&mut self, class: Class) -> Result<Option<Mark>, Memory>
        ensures { IfOk result (λ mark. IsMoved (steps.step_enum self.old.frames class) mark
            self.new.frames self.new.at) }
    {
        match class {
            Class::Name => Ok(self.word(At::AfterEnumTag)),
            Class::Sign(Punct::LeftBrace) => {
                self.open_brace(Frame::Listing(false), At::EnumeratorStart)
            }
            _ => Ok(None),
        }
    }

    /// A token after the tag of an enumeration (6.7.2.2, 6.7.2.3).
    pub(crate) fn take_enum_tag(&mut self, class: Class) -> Result<Option<Mark>, Memory>
        ensures { IfOk result (λ mark. IsMoved (steps.step_enum_tag self.old.frames class) mark
            self.new.frames self.new.at) }
    {
        match class {
            Class::Sign(Punct::LeftBrace) => {
                self.open_brace(Frame::Listing(false), At::EnumeratorStart)
            }
            _ => self.end_word(class),
        }
    }

    /// The `}` after a last comma, with at least one enumerator (6.7.2.2).
    fn end_comma(&mut self) -> Option<Mark>
        ensures { IsMoved (steps.listing_ended self.old.frames) result self.new.frames
            self.new.at }
    {
        let depth = self.frames.depth();
        match self.frames.pop() {
            Some(Frame::Listing(true)) => self.specified(depth),
            _ => None,
        }
    }

    /// A token before an enumeration constant (6.7.2.2).
    pub(crate) fn take_enumerator(&mut self, class: Class) -> Option<Mark>
        ensures { IsMoved (steps.step_enumerator self.old.frames class) result self.new.frames
            self.new.at }
    {
        match class {
            Class::Name => self.word(At::AfterEnumerator),
            Class::Sign(Punct::RightBrace) => self.end_comma(),
            _ => None,
        }
    }

    /// `=` after the name of an enumeration constant (6.7.2.2).
    fn value(&mut self) -> Result<Option<Mark>, Memory>
        ensures { IfOk result (λ mark. IsMoved (steps.value_at self.old.frames) mark
            self.new.frames self.new.at) }
    {
        let Some(Frame::Listing(some)) = self.frames.pop() else {
            return Ok(None);
        };
        let role = self.frames.role();
        self.frames.push(Frame::Listing(some))?;
        self.frames.push(Frame::Valued)?;
        let depth = self.frames.depth();
        Ok(self.plainly(role, At::Want, depth))
    }

    /// A token after the name of an enumeration constant (6.7.2.2).
    pub(crate) fn take_enumerator_name(&mut self, class: Class) -> Result<Option<Mark>, Memory>
        ensures { IfOk result (λ mark. IsMoved (steps.step_enumerator_name self.old.frames class)
            mark self.new.frames self.new.at) }
    {
        match class {
            Class::Sign(Punct::Equal) => self.value(),
            Class::Sign(Punct::Comma) => self.next_enumerator(),
            Class::Sign(Punct::RightBrace) => Ok(self.end_listing()),
            _ => Ok(None),
        }
    }
}
