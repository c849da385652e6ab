//! What the fields of a request's head say.
ghost use Rattle.std.specs.Prelude.{◌≡◌, ◌≤◌, ◌<◌, ℕ, List, length, map, codes, All, IfOk, flat_map, ◌||◌};
ghost use Rattle.http_header.specs.Token.{lowercase};
ghost use Rattle.http_header.specs.FieldName.{IsFieldName};
ghost use Rattle.http_header.specs.FieldValue.{plain_value, IsFieldValue};
ghost use Rattle.http_header.specs.HeaderMap.{append};
ghost use Rattle.httparse.specs.Spans.{header_bytes, IsHeaderWithin};
ghost use Rattle.mq_head.specs.Lists.{members, has_member};
ghost use Rattle.mq_head.specs.Fields.{values_of, hosts, kind_of, first_kind, upgrade_kind, connection_upgrades, is_there, has_content};
ghost use Rattle.mq_head.specs.Kept.{Keeps, IsKeepable, HasFewer, bytes_of};

use crate::list::{Parts, is_same};
use http_header::{
    GetAll, HeaderMap, HeaderMapError, HeaderName, HeaderNameError, HeaderValue, HeaderValueError,
};
use httparse::spans::HeaderSpan;
use mq_addr::Kind;
use mq_wire::NoMemory;
use std::alloc::Global;

/// The fields of a head, by name.
#[derive(Drop)]
pub struct Fields {
    map: HeaderMap,
}

/// A name of a field, in lower case. What `httparse` reads is one, so an `Err` is want of memory.
fn name_of(alloc: Global, name: &[u8]) -> Result<HeaderName, NoMemory>
    requires { IsFieldName name.now }
    ensures { IfOk result (λ kept. kept ≡ lowercase name.now) }
{
    match HeaderName::from_bytes(alloc, name) {
        Ok(name) => Ok(name),
        Err(HeaderNameError::OutOfMemory) => Err(NoMemory),
        Err(HeaderNameError::Invalid) => unreachable!(),
    }
}

/// A value of a field. What `httparse` reads is one, so an `Err` is want of memory.
fn value_of(alloc: Global, value: &[u8]) -> Result<HeaderValue, NoMemory>
    requires { IsFieldValue value.now }
    ensures { IfOk result (λ kept. kept ≡ plain_value value.now) }
{
    match HeaderValue::from_bytes(alloc, value) {
        Ok(value) => Ok(value),
        Err(HeaderValueError::OutOfMemory) => Err(NoMemory),
        Err(HeaderValueError::Invalid) => unreachable!(),
    }
}

/// Keeps one more field. A map has room for more than 64, so an `Err` is want of memory.
fn keep(alloc: Global, map: &mut HeaderMap, name: &[u8], value: &[u8]) -> Result<(), NoMemory>
    requires field { IsKeepable (name.now, value.now) }
    requires room { HasFewer 64 map.old }
    ensures { IfOk result (λ _. map.new ≡ append map.old (lowercase name.now) (plain_value value.now)) }
{
    let name = name_of(alloc, name)?;
    let value = value_of(alloc, value)?;
    match map.append(name, value) {
        Ok(_) => Ok(()),
        Err(HeaderMapError::OutOfMemory) => Err(NoMemory),
        Err(HeaderMapError::MaxSizeReached) => unreachable!(),
    }
}

/// The kind of tunnel that a protocol name stands for.
#[tactic(auto, unfolding(crate::specs::Fields::kind_of))]
fn kind_of(token: &[u8]) -> Option<Kind>
    ensures { result ≡ kind_of token.now }
{
    if is_same(token, b"connect-udp") {
        Some(Kind::Udp)
    } else if is_same(token, b"connect-ip") {
        Some(Kind::Ip)
    } else {
        None
    }
}

/// The kind of the first member that stands for one.
#[tactic(auto, using(crate::proofs::FieldsLemmas::first_kind_value))]
fn first_kind_in(value: &[u8]) -> Option<Kind>
    ensures { result ≡ first_kind (members value.now) }
{
    let mut kind = None;
    for part in Parts::of(value) {
        kind = kind.or(kind_of(part));
    }
    kind
}

/// The kind of the first member of all values that stands for one.
#[tactic(auto, using(crate::proofs::FieldsLemmas::first_kind_append))]
fn first_kind(values: GetAll<'_, HeaderValue>) -> Option<Kind>
    ensures { result ≡ first_kind (flat_map members (bytes_of values.entry)) }
{
    let mut kind = None;
    for value in values {
        kind = kind.or(first_kind_in(value.as_bytes()));
    }
    kind
}

/// Whether one of the members is this token.
#[tactic(auto, using(crate::proofs::FieldsLemmas::has_member_value))]
fn has_member_in(token: &[u8], value: &[u8]) -> bool
    requires { 0 < length token.now }
    ensures { result ≡ has_member token.now (members value.now) }
{
    for part in Parts::of(value) {
        if is_same(part, token) {
            return true;
        }
    }
    false
}

/// Whether one of the members of all values is this token.
fn has_member(token: &[u8], values: GetAll<'_, HeaderValue>) -> bool
    requires { 0 < length token.now }
    ensures { result ≡ has_member token.now (flat_map members (bytes_of values.entry)) }
{
    for value in values {
        if has_member_in(token, value.as_bytes()) {
            return true;
        }
    }
    false
}

fn count_of(values: GetAll<'_, HeaderValue>) -> usize
    ensures { result ≡ length values.entry }
{
    values.iter().count()
}

fn either(a: bool, b: bool) -> bool
    ensures { result ≡ (a || b) }
{
    a || b
}

impl Fields {
    /// Keeps the fields that the spans cover, at most 64.
    pub fn of(alloc: Global, buf: &[u8], headers: &[HeaderSpan]) -> Result<Fields, NoMemory>
        requires within { All (IsHeaderWithin (length buf.now)) headers.now }
        requires fields { All (λ header. IsKeepable (header_bytes buf.now header)) headers.now }
        requires few { length headers.now ≤ 64 }
        ensures { IfOk result (λ fields. Keeps fields (map (header_bytes buf.now) headers.now)) }
    {
        let mut map = HeaderMap::new(alloc);
        for header in headers {
            keep(alloc, &mut map, header.name.of(buf), header.value.of(buf))?;
        }
        Ok(Fields { map })
    }

    /// The values of all fields of a name, in order.
    fn named(&self, name: &str) -> GetAll<'_, HeaderValue>
        ensures { (fields : List (List ℕ × List ℕ)) → Keeps self.now fields → bytes_of result ≡ values_of name.now fields }
    {
        self.map.get_all(name)
    }

    fn count(&self, name: &str) -> usize
        ensures { (fields : List (List ℕ × List ℕ)) → Keeps self.now fields → result ≡ length (values_of name.now fields) }
    {
        count_of(self.named(name))
    }

    fn has(&self, name: &str) -> bool
        ensures { (fields : List (List ℕ × List ℕ)) → Keeps self.now fields → result ≡ is_there name.now fields }
    {
        self.count(name) > 0
    }

    /// How many Host fields there are.
    pub fn hosts(&self) -> usize
        ensures { (fields : List (List ℕ × List ℕ)) → Keeps self.now fields → result ≡ hosts fields }
    {
        self.count("host")
    }

    /// The tunnel that Upgrade asks for.
    pub fn upgrade_kind(&self) -> Option<Kind>
        ensures { (fields : List (List ℕ × List ℕ)) → Keeps self.now fields → result ≡ upgrade_kind fields }
    {
        first_kind(self.named("upgrade"))
    }

    /// Whether Connection names the upgrade.
    pub fn connection_upgrades(&self) -> bool
        ensures { (fields : List (List ℕ × List ℕ)) → Keeps self.now fields → result ≡ connection_upgrades fields }
    {
        has_member(b"upgrade", self.named("connection"))
    }

    /// Whether a field says that content follows.
    pub fn has_content(&self) -> bool
        ensures { (fields : List (List ℕ × List ℕ)) → Keeps self.now fields → result ≡ has_content fields }
    {
        either(
            self.has("content-length"),
            either(self.has("content-type"), self.has("transfer-encoding")),
        )
    }
}
