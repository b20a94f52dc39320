//! Specifiers of declarations and type names as text (6.7, 6.7.1 to 6.7.3).
#![tactic(auto, using(crate::proofs::PhraseSteps::phrase_steps))]

ghost use Rattle.std.specs.Prelude.{◌≡◌, ◌++◌, OnOk};
ghost use Rattle.hv_ctree.specs.tree.Erase.{tag_of, type_word_of, type_words_of, declared_word_of, declared_words_of, type_specifier_of, compound_of, member_declaration_of, members_of, declarators_of, enumeration_of, enumerators_of, enumerator_of};
ghost use Rattle.hv_grammar.specs.Tokens.{tag_tokens, specifier_tokens, specifiers_tokens, type_tokens, compound_tokens, members_tokens, member_tokens, declarators_tokens, enumeration_tokens, enumerators_tokens, enumerator_tokens};
ghost use Rattle.hv_print.specs.working.Printed.{printed};

use crate::declarator::print_declarator;
use crate::expr::print_expr;
use crate::token::{put_comma_before, put_keyword, put_name, put_punct, put_typedef_name};
use crate::word::{compound_word, qualifier_word, storage_word};
use hv_base::{Keyword, List, Memory, Punct, Text};
use hv_ctree::{
    DeclarationSpecifier, Declarator, EnumSpecifier, Enumerator, SpecifierQualifier,
    StructDeclaration, StructOrUnionSpecifier, Tag, TypeSpecifier,
};
use std::alloc::Global;
use std::rc::Rc;

/// Adds the words of declaration specifiers (6.7).
#[cycle(phrase)]
pub(crate) fn print_declared_words(
    alloc: Global,
    out: &mut Text,
    words: &List<Rc<DeclarationSpecifier>>,
) -> Result<(), Memory>
    ensures { OnOk result
        (out.new ≡ out.old ++ printed (specifiers_tokens (declared_words_of words.now))) }
{
    for word in words.as_slice() {
        print_declared_word(alloc, out, word)?;
    }
    Ok(())
}

/// Adds a word of declaration specifiers (6.7).
#[cycle(phrase)]
fn print_declared_word(
    alloc: Global,
    out: &mut Text,
    word: &DeclarationSpecifier,
) -> Result<(), Memory>
    ensures { OnOk result
        (out.new ≡ out.old ++ printed (specifier_tokens (declared_word_of word.now))) }
{
    match word {
        DeclarationSpecifier::Storage { storage, .. } => put_keyword(out, storage_word(*storage)),
        DeclarationSpecifier::Type { specifier, .. } => {
            print_type_specifier(alloc, out, specifier)
        }
        DeclarationSpecifier::Qualifier { qualifier, .. } => {
            put_keyword(out, qualifier_word(*qualifier))
        }
        DeclarationSpecifier::Inline { .. } => put_keyword(out, Keyword::Inline),
    }
}

/// Adds the words of a specifier-qualifier-list (6.7.2.1).
#[cycle(phrase)]
pub(crate) fn print_type_words(
    alloc: Global,
    out: &mut Text,
    words: &List<Rc<SpecifierQualifier>>,
) -> Result<(), Memory>
    ensures { OnOk result
        (out.new ≡ out.old ++ printed (specifiers_tokens (type_words_of words.now))) }
{
    for word in words.as_slice() {
        print_type_word(alloc, out, word)?;
    }
    Ok(())
}

/// Adds a word of a specifier-qualifier-list (6.7.2.1).
#[cycle(phrase)]
fn print_type_word(alloc: Global, out: &mut Text, word: &SpecifierQualifier) -> Result<(), Memory>
    ensures { OnOk result
        (out.new ≡ out.old ++ printed (specifier_tokens (type_word_of word.now))) }
{
    match word {
        SpecifierQualifier::Type { specifier, .. } => print_type_specifier(alloc, out, specifier),
        SpecifierQualifier::Qualifier { qualifier, .. } => {
            put_keyword(out, qualifier_word(*qualifier))
        }
    }
}

/// Adds a type specifier (6.7.2).
#[cycle(phrase)]
fn print_type_specifier(
    alloc: Global,
    out: &mut Text,
    specifier: &TypeSpecifier,
) -> Result<(), Memory>
    ensures { OnOk result
        (out.new ≡ out.old ++ printed (type_tokens (type_specifier_of specifier.now))) }
{
    match specifier {
        TypeSpecifier::Void { .. } => put_keyword(out, Keyword::Void),
        TypeSpecifier::Char { .. } => put_keyword(out, Keyword::Char),
        TypeSpecifier::Short { .. } => put_keyword(out, Keyword::Short),
        TypeSpecifier::Int { .. } => put_keyword(out, Keyword::Int),
        TypeSpecifier::Long { .. } => put_keyword(out, Keyword::Long),
        TypeSpecifier::Signed { .. } => put_keyword(out, Keyword::Signed),
        TypeSpecifier::Unsigned { .. } => put_keyword(out, Keyword::Unsigned),
        TypeSpecifier::Bool { .. } => put_keyword(out, Keyword::Bool),
        TypeSpecifier::Compound { compound, .. } => print_compound(alloc, out, compound),
        TypeSpecifier::Enumeration { enumeration, .. } => {
            print_enumeration(alloc, out, enumeration)
        }
        TypeSpecifier::TypedefName { name, .. } => put_typedef_name(out, name),
    }
}

/// Adds a structure or union specifier (6.7.2.1).
#[cycle(phrase)]
fn print_compound(
    alloc: Global,
    out: &mut Text,
    compound: &StructOrUnionSpecifier,
) -> Result<(), Memory>
    ensures { OnOk result
        (out.new ≡ out.old ++ printed (compound_tokens (compound_of compound.now))) }
{
    match compound {
        StructOrUnionSpecifier::Defined {
            kind,
            tag,
            members,
            ..
        } => {
            put_keyword(out, compound_word(*kind))?;
            put_tag(out, tag)?;
            put_punct(out, Punct::LeftBrace)?;
            print_members(alloc, out, members)?;
            put_punct(out, Punct::RightBrace)
        }
        StructOrUnionSpecifier::Mentioned { kind, tag, .. } => {
            put_keyword(out, compound_word(*kind))?;
            put_name(out, &tag.name)
        }
    }
}

/// Adds a tag, if there is one.
fn put_tag(out: &mut Text, tag: &Option<Tag>) -> Result<(), Memory>
    ensures { OnOk result (out.new ≡ out.old ++ printed (tag_tokens (tag_of tag.now))) }
{
    match tag {
        Some(tag) => put_name(out, &tag.name),
        None => Ok(()),
    }
}

/// Adds the members of a structure or union (6.7.2.1).
#[cycle(phrase)]
fn print_members(
    alloc: Global,
    out: &mut Text,
    members: &List<Rc<StructDeclaration>>,
) -> Result<(), Memory>
    ensures { OnOk result
        (out.new ≡ out.old ++ printed (members_tokens (members_of members.now))) }
{
    for member in members.as_slice() {
        print_member(alloc, out, member)?;
    }
    Ok(())
}

/// Adds the members of one declaration (6.7.2.1).
#[cycle(phrase)]
fn print_member(alloc: Global, out: &mut Text, member: &StructDeclaration) -> Result<(), Memory>
    ensures { OnOk result
        (out.new ≡ out.old ++ printed (member_tokens (member_declaration_of member.now))) }
{
    match member {
        StructDeclaration::Of {
            specifiers,
            declarators,
            ..
        } => {
            print_type_words(alloc, out, specifiers)?;
            print_declarators(alloc, out, declarators)?;
            put_punct(out, Punct::Semicolon)
        }
    }
}

/// Adds the declarators of members, with commas between them (6.7.2.1).
#[cycle(phrase)]
fn print_declarators(
    alloc: Global,
    out: &mut Text,
    declarators: &List<Rc<Declarator>>,
) -> Result<(), Memory>
    ensures { OnOk result
        (out.new ≡ out.old ++ printed (declarators_tokens (declarators_of declarators.now))) }
{
    for (index, declarator) in declarators.as_slice().iter().enumerate() {
        put_comma_before(out, index)?;
        print_declarator(alloc, out, declarator)?;
    }
    Ok(())
}

/// Adds an enumeration specifier (6.7.2.2).
#[cycle(phrase)]
fn print_enumeration(
    alloc: Global,
    out: &mut Text,
    enumeration: &EnumSpecifier,
) -> Result<(), Memory>
    ensures { OnOk result
        (out.new ≡ out.old ++ printed (enumeration_tokens (enumeration_of enumeration.now))) }
{
    match enumeration {
        EnumSpecifier::Listed {
            tag,
            enumerators,
            ..
        } => {
            put_keyword(out, Keyword::Enum)?;
            put_tag(out, tag)?;
            put_punct(out, Punct::LeftBrace)?;
            print_enumerators(alloc, out, enumerators)?;
            put_punct(out, Punct::RightBrace)
        }
        EnumSpecifier::ListedComma {
            tag,
            enumerators,
            ..
        } => {
            put_keyword(out, Keyword::Enum)?;
            put_tag(out, tag)?;
            put_punct(out, Punct::LeftBrace)?;
            print_enumerators(alloc, out, enumerators)?;
            put_punct(out, Punct::Comma)?;
            put_punct(out, Punct::RightBrace)
        }
        EnumSpecifier::Mentioned { tag, .. } => {
            put_keyword(out, Keyword::Enum)?;
            put_name(out, &tag.name)
        }
    }
}

/// Adds enumeration constants, with commas between them (6.7.2.2).
#[cycle(phrase)]
fn print_enumerators(
    alloc: Global,
    out: &mut Text,
    enumerators: &List<Rc<Enumerator>>,
) -> Result<(), Memory>
    ensures { OnOk result
        (out.new ≡ out.old ++ printed (enumerators_tokens (enumerators_of enumerators.now))) }
{
    for (index, enumerator) in enumerators.as_slice().iter().enumerate() {
        put_comma_before(out, index)?;
        print_enumerator(alloc, out, enumerator)?;
    }
    Ok(())
}

/// Adds an enumeration constant (6.7.2.2).
#[cycle(phrase)]
fn print_enumerator(alloc: Global, out: &mut Text, enumerator: &Enumerator) -> Result<(), Memory>
    ensures { OnOk result
        (out.new ≡ out.old ++ printed (enumerator_tokens (enumerator_of enumerator.now))) }
{
    match enumerator {
        Enumerator::Plain { name, .. } => put_name(out, name),
        Enumerator::Valued { name, value, .. } => {
            put_name(out, name)?;
            put_punct(out, Punct::Equal)?;
            print_expr(alloc, out, value)
        }
    }
}
