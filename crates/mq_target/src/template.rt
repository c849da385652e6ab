//! Templates.
ghost use Rattle.std.specs.Prelude.{◌≡◌, ◌++◌, ◌∷◌, ℕ, List, IfOk, codes};
ghost use Rattle.mq_target.specs.Expansion.{Suits, expanded};
ghost use Rattle.mq_target.specs.Form.{question};
ghost use Rattle.mq_target.specs.Matching.{Matches};
ghost use Rattle.mq_target.specs.declared.target.Matched.TheVariants.{Yes};
ghost use Rattle.mq_target.specs.Parsed.{ParsesTemplate};
ghost use Rattle.mq_target.specs.Outlines.{IsOutline};
ghost use Rattle.mq_target.specs.Template.{IsTemplate, before_well_known, well_known};

use crate::expansion::{put_first, put_second};
use crate::form::has_form;
use crate::judge::judged;
use crate::laws::expanded_again;
use crate::outline::{Outline, first_name, outline_of, second_name};
use crate::shape::Order;
use crate::split::split;
use crate::target::has_its_sizes;
use crate::{Matched, Target, TemplateFault};
use mq_addr::Kind;
use mq_wire::{Bytes, NoMemory};
use std::alloc::Global;
use std::marker::Model;

/// A template of a kind of tunnel, with the two variables of that kind.
#[derive(Debug, Drop)]
pub struct Template {
    kind: Kind,
    order: Order,
    before: Vec<u8>,
    between: Vec<u8>,
    after: Vec<u8>,
}

impl Model for Template {
    ghost use Rattle.std.specs.Prelude.{◌≡◌, true};
    ghost use Rattle.mq_target.specs.Template.{Shape};

    ghost Value = { Shape };

    ghost use Rattle.mq_target.specs.Classes.{begins, ends_or_begins, is_delimiter};

    ghost view = { λ t. record {
      kind = t.kind;
      order = t.order;
      before = t.before.items;
      between = t.between.items;
      after = t.after.items;
    } };

    ghost invariant = { λ t. (begins is_delimiter t.between.items ≡ true) × (ends_or_begins is_delimiter t.after.items ≡ true) };
}

impl Template {
    /// The template that a text is. `Variables` where it would be one with other variables, `Syntax` where it has not
    /// even the form of a template.
    pub fn parse(alloc: Global, kind: Kind, text: &[u8]) -> Result<Template, TemplateFault>
        ensures { ParsesTemplate kind text.now result }
    {
        match outline_of(kind, text) {
            Some(outline) => {
                let template = template_of(alloc, kind, outline)?;
                Ok(template)
            }
            None if has_form(text) => Err(TemplateFault::Variables),
            None => Err(TemplateFault::Syntax),
        }
    }

    /// The template of a kind where none is set: `/.well-known/masque/udp/{target_host}/{target_port}/` (RFC 9298,
    /// section 3.4) or `/.well-known/masque/ip/{target}/{ipproto}/` (RFC 9484, section 3).
    #[tactic(auto, unfolding(crate::specs::Classes::is_delimiter))]
    pub fn well_known(alloc: Global, kind: Kind) -> Result<Template, NoMemory>
        ensures { IfOk result (λ t. t ≡ well_known kind) }
    {
        Ok(Template {
            kind,
            order: Order::TargetFirst,
            before: Vec::from_slice(alloc, before_well_known(kind))?,
            between: Vec::from_slice(alloc, b"/".as_slice())?,
            after: Vec::from_slice(alloc, b"/".as_slice())?,
        })
    }

    /// What a path, with its query, is to the template. Only an escape and a name take memory.
    pub fn matches(&self, alloc: Global, path: &[u8]) -> Result<Matched, NoMemory>
        ensures { IfOk result (λ found. Matches self.now path.now found) }
    {
        let parts = split(
            self.before.as_slice(),
            self.between.as_slice(),
            self.after.as_slice(),
            path,
        );
        let Some((first, second)) = parts else {
            return Ok(Matched::No);
        };
        match self.order {
            Order::TargetFirst => judged(alloc, self.kind, first, second),
            Order::TargetLast => judged(alloc, self.kind, second, first),
        }
    }

    /// The path of a target. All bytes of the values but letters, digits, `-`, `.`, `_` and `~` are escaped. `matches` reads
    /// the path as that target, where this is of the template's kind and well-formed.
    #[tactic(auto, unfolding(crate::specs::Expansion::expanded))]
    pub fn expand(&self, alloc: Global, target: &Target) -> Result<Bytes, NoMemory>
        ensures path { IfOk result (λ path. path ≡ expanded self.now target.now) }
        ensures again { IfOk result (λ path. Suits self.now.kind target.now → Matches self.now path (Yes target.now)) }
    {
        expanded_again();
        has_its_sizes(target);
        let mut path = Vec::from_slice(alloc, self.before.as_slice())?;
        put_first(alloc, &mut path, self.order, target)?;
        path.extend_from_slice(self.between.as_slice())?;
        put_second(alloc, &mut path, self.order, target)?;
        path.extend_from_slice(self.after.as_slice())?;
        Ok(Bytes::from_vec(path))
    }

    /// An equal template.
    pub fn copy(&self, alloc: Global) -> Result<Template, NoMemory>
        ensures { IfOk result (λ copy. copy ≡ self.now) }
    {
        Ok(Template {
            kind: self.kind,
            order: self.order,
            before: Vec::from_slice(alloc, self.before.as_slice())?,
            between: Vec::from_slice(alloc, self.between.as_slice())?,
            after: Vec::from_slice(alloc, self.after.as_slice())?,
        })
    }
}

/// What stands before the first value.
fn before_well_known(kind: Kind) -> &'static [u8]
    ensures { result.now ≡ before_well_known kind }
{
    match kind {
        Kind::Udp => b"/.well-known/masque/udp/",
        Kind::Ip => b"/.well-known/masque/ip/",
    }
}

/// The template of the parts of a text.
fn template_of(alloc: Global, kind: Kind, outline: Outline<'_>) -> Result<Template, NoMemory>
    requires { (text : List ℕ) × IsOutline kind text outline }
    ensures { (text : List ℕ) → IsOutline kind text outline.entry → IfOk result (λ t. (t.kind ≡ kind) × IsTemplate text t) }
{
    match outline {
        Outline::Plain {
            order,
            before,
            between,
            after,
        } => Ok(Template {
            kind,
            order,
            before: Vec::from_slice(alloc, before)?,
            between: Vec::from_slice(alloc, between)?,
            after: Vec::from_slice(alloc, after)?,
        }),
        Outline::Pair { order, front } => Ok(Template {
            kind,
            order,
            before: before_pair(alloc, front, first_name(kind, order))?,
            between: between_pair(alloc, second_name(kind, order))?,
            after: Vec::new(alloc),
        }),
    }
}

/// What stands before the first value of a last pair: `?name=` behind the literals.
fn before_pair(alloc: Global, front: &[u8], name: &[u8]) -> Result<Vec<u8>, NoMemory>
    ensures { IfOk result (λ v. v.items ≡ front.now ++ question ∷ (name.now ++ codes "=")) }
{
    let mut text = Vec::from_slice(alloc, front)?;
    text.push(b'?')?;
    text.extend_from_slice(name)?;
    text.push(b'=')?;
    Ok(text)
}

/// What stands between the two values of a last pair: `&name=`.
fn between_pair(alloc: Global, name: &[u8]) -> Result<Vec<u8>, NoMemory>
    ensures { IfOk result (λ v. v.items ≡ codes "&" ++ name.now ++ codes "=") }
{
    let mut text = Vec::from_slice(alloc, b"&".as_slice())?;
    text.extend_from_slice(name)?;
    text.push(b'=')?;
    Ok(text)
}
