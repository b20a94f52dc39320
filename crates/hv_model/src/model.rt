//! Feature models and model files.
ghost use Rattle.std.specs.Prelude.{◌≡◌, ◌+◌, ◌<◌, ◌≤◌, ◌↔◌, [], ◌∷◌, ◌++◌, ℕ, Bool, List, Some, false, true, slice_get, position, length, map, IfErr, IfNone, IfOk, IfSome, IsTrue, OnOk};
ghost use Rattle.std.specs.List.{list_all};
ghost use Rattle.std.specs.Str.{bytes_eq};
ghost use Rattle.hv_model.specs.Grammar.{IsRule};
ghost use Rattle.hv_model.specs.Lines.{Reading, Reads, line_of, option_line, rule_line, bad_line};
ghost use Rattle.hv_model.specs.Model.{IsRefusalIn, IsRefusalOf};
ghost use Rattle.hv_model.specs.working.Steps.{AllFit};
ghost use Rattle.hv_model.specs.Name.{AllOptionNames, are_distinct, is_option_name as option_name};
ghost use Rattle.hv_model.specs.Rule.{Features, IsValid, is_about, meets_all};
ghost use Rattle.hv_model.specs.working.Steps.{fits, rule_of};
ghost use Rattle.hv_model.specs.Token.{Token, tokens};
ghost use Rattle.hv_model.specs.working.ModelLine.{IsRead};
ghost use Rattle.hv_model.specs.declared.faults.ModelRefusal.TheVariants.{Bad};

use crate::code::Code;
use crate::faults::{ModelFault, ModelKind, ModelRefusal};
use crate::model_line::{ModelLine, next_line, read_line, strip_return};
use crate::names::Names;
use crate::rules::read_rule;
use hv_base::{Config, MOST_OPTIONS};
use std::alloc::Global;

/// A feature model: the options of a product line, in order, and the rules on them.
#[derive(Debug, Drop)]
pub struct Model {
    names: Names,
    rules: Vec<Code>,
}

impl std::marker::Model for Model {
    ghost use Rattle.hv_model.specs.Rule.{Features};
    ghost use Rattle.hv_model.specs.working.Codes.{features_code};

    ghost Value = { Features };

    ghost coded = { features_code };

    ghost use Rattle.std.specs.Prelude.{length, map};
    ghost use Rattle.hv_model.specs.working.Steps.{AllFit};
    ghost use Rattle.hv_model.specs.working.Steps.{rule_of};

    ghost view = { λ m. record { names = m.names; rules = map rule_of m.rules.items } };

    ghost invariant = { λ m. AllFit (length m.names) m.rules.items };
}

impl Model {
    /// A model without options and rules, and so with one configuration.
    pub fn new(alloc: Global) -> Model
        ensures names { result.names ≡ [] }
        ensures rules { result.rules ≡ [] }
    {
        Model {
            names: Names::new(alloc),
            rules: Vec::new(alloc),
        }
    }

    /// The number of options, at most 256.
    pub fn options(&self) -> usize
        ensures count { result ≡ length self.now.names }
        ensures limit { result ≤ 256 }
        ensures names { AllOptionNames self.now.names }
        ensures distinct { IsTrue (are_distinct self.now.names) }
    {
        self.names.len()
    }

    /// The name of the option of this number.
    pub fn name(&self, i: usize) -> &str
        requires { i < length self.now.names }
        ensures { slice_get self.now.names i ≡ Some result.now }
    {
        self.names.name(i)
    }

    /// The number of the option of this name, if there is one.
    pub fn position(&self, name: &[u8]) -> Option<usize>
        ensures { result ≡ position (bytes_eq name.now) self.now.names }
    {
        self.names.position(name)
    }

    /// The codes of the rules, in order.
    pub(crate) fn rules(&self) -> &[Code]
        ensures rules { map rule_of result.now ≡ self.now.rules }
        ensures fit { AllFit (length self.now.names) result.now }
    {
        self.rules.as_slice()
    }

    /// What the model was made with.
    pub(crate) fn allocator(&self) -> Global {
        *self.rules.allocator()
    }

    /// Whether the options' values meet every rule.
    fn meets_all(&self, values: &[bool]) -> bool
        ensures { result ≡ meets_all values.now self.now.rules }
    {
        meets_each(&self.rules, values)
    }
}

/// Whether the options' values meet each rule.
fn meets_each(rules: &[Code], values: &[bool]) -> bool
    ensures { result ≡ meets_all values.now (map rule_of rules.now) }
{
    for rule in rules {
        if !rule.meets(values) {
            return false;
        }
    }
    true
}

/// Whether the configuration meets every rule of the model.
pub fn is_valid(model: &Model, config: &Config) -> bool
    requires { length config.now.on ≡ length model.now.names }
    ensures { IsTrue result ↔ IsValid model.now config.now.on }
{
    model.meets_all(config.on.as_slice())
}

/// The refusal for a fault of a line.
pub(crate) fn bad(line: u64, kind: ModelKind) -> ModelRefusal
    ensures { result ≡ Bad (record { line = line; kind = kind }) }
{
    ModelRefusal::Bad(ModelFault { line, kind })
}

impl Model {
    /// Adds the option that the line of this number names.
    fn add_option(&mut self, name: &[u8], number: u64) -> Result<(), ModelRefusal>
        requires { IsTrue (option_name name.now) }
        ensures added { OnOk result ((line : List ℕ) (more : List (List ℕ)) (o : Reading)
            → line_of line ≡ option_line name.now → Reads self.new (number + 1) more o
            → Reads self.old number (line ∷ more) o) }
        ensures refused { IfErr result (λ refusal. (line : List ℕ) (more : List (List ℕ))
            → line_of line ≡ option_line name.now → IsRefusalIn (Reads self.old number (line
            ∷ more)) refusal) }
    {
        if self.names.contains(name) {
            return Err(bad(number, ModelKind::Repeated));
        }
        if self.names.len() == MOST_OPTIONS {
            return Err(bad(number, ModelKind::TooMany));
        }
        match self.names.push(name) {
            Ok(()) => Ok(()),
            Err(_) => Err(ModelRefusal::Memory),
        }
    }

    /// Adds a rule that the line of this number says.
    fn add_code(&mut self, code: Code, number: u64) -> Result<(), ModelRefusal>
        requires { list_all (fits (length self.old.names)) code
            ≡ is_about (length self.old.names) (rule_of code) }
        ensures added { OnOk result
            ((line : List ℕ) (ts : List Token) (more : List (List ℕ)) (o : Reading) → line_of line
            ≡ rule_line ts → IsRule self.old.names ts (rule_of code)
            → Reads self.new (number + 1) more o → Reads self.old number (line ∷ more) o) }
        ensures refused { IfErr result
            (λ refusal. (line : List ℕ) (ts : List Token) (more : List (List ℕ)) → line_of line
            ≡ rule_line ts → IsRule self.old.names ts (rule_of code)
            → IsRefusalIn (Reads self.old number (line ∷ more)) refusal) }
    {
        if !code.fits(self.names.len()) {
            return Err(bad(number, ModelKind::Unknown));
        }
        match self.rules.push(code) {
            Ok(()) => Ok(()),
            Err(_) => Err(ModelRefusal::Memory),
        }
    }

    /// Adds the rule with this text, which the line of this number says.
    fn add_rule(&mut self, text: &[u8], number: u64) -> Result<(), ModelRefusal>
        ensures added { OnOk result ((line : List ℕ) (more : List (List ℕ)) (o : Reading)
            → line_of line ≡ rule_line (tokens text.now) → Reads self.new (number + 1) more o
            → Reads self.old number (line ∷ more) o) }
        ensures refused { IfErr result (λ refusal. (line : List ℕ) (more : List (List ℕ))
            → line_of line ≡ rule_line (tokens text.now) → IsRefusalIn (Reads self.old number (line
            ∷ more)) refusal) }
    {
        match read_rule(*self.rules.allocator(), &self.names, text) {
            Ok(Some(code)) => self.add_code(code, number),
            Ok(None) => Err(bad(number, ModelKind::BadLine)),
            Err(_) => Err(ModelRefusal::Memory),
        }
    }

    /// Adds what the line of this number says.
    fn add_line(&mut self, line: &[u8], number: u64) -> Result<(), ModelRefusal>
        ensures added { OnOk result ((more : List (List ℕ)) (o : Reading)
            → Reads self.new (number + 1) more o → Reads self.old number (line.now ∷ more) o) }
        ensures refused { IfErr result (λ refusal. (more : List (List ℕ))
            → IsRefusalIn (Reads self.old number (line.now ∷ more)) refusal) }
    {
        match read_line(line) {
            ModelLine::Nothing => Ok(()),
            ModelLine::Option(name) => self.add_option(name, number),
            ModelLine::Rule(text) => self.add_rule(text, number),
            ModelLine::Bad => Err(bad(number, ModelKind::BadLine)),
        }
    }
}

/// Reads the lines of a model file, whether a configuration is valid or not. The fault is the first
/// one.
pub(crate) fn read_lines(alloc: Global, bytes: &[u8]) -> Result<Model, ModelRefusal>
    ensures read { IfOk result (IsRead bytes.now) }
    ensures refused { IfErr result (IsRefusalOf bytes.now) }
{
    let mut model = Model::new(alloc);
    let mut number = 1u64;
    let mut rest = bytes;
    while let Some((line, more)) = next_line(rest) {
        model.add_line(strip_return(line), number)?;
        number += 1;
        rest = more;
    }
    Ok(model)
}
