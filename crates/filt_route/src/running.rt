//! The attributes of a route while a filter runs.

ghost use Rattle.std.specs.Prelude.{◌≡◌, Ok, IfOk, IfSome};
ghost use Rattle.conf_ast.specs.declared.attribute.Attribute.TheVariants as attributes;
ghost use Rattle.filt_meaning.specs.Operators.{clist_in, path_in};
ghost use Rattle.filt_meaning.specs.Seen.{val_of};
ghost use Rattle.filt_meaning.specs.Values.{VClist, VInt, VIp, VOrigin, VPath};
ghost use Rattle.filt_meaning.specs.Attributes.{attribute_of, defined_as, is_defined, with_attribute, without_attribute};
ghost use Rattle.filt_route.specs.Lists.{numbers_of, pairs_of};
ghost use Rattle.filt_route.specs.Seen.{around_in, Gives, IsApplicable};

use crate::halt::Halt;
use crate::parts::{dest, int, ip, origin};
use crate::surroundings::Surroundings;
use attrs::{Attrs, Clist, Dest, FilterFault, Kind, Origin, Path, Shared};
use bits_ip::{Addr, OutOfMemory};
use conf_ast::filters::Attribute;
use filt_meaning::Value;
use std::alloc::Global;
use std::marker::Model;

/// A path that the route lends, or one that the filter made.
#[derive(Drop)]
pub(crate) enum Numbers<'a> {
    Lent(&'a Path),
    Made(Path),
}

/// A list of communities that the route lends, or one that the filter made.
#[derive(Drop)]
pub(crate) enum Pairs<'a> {
    Lent(&'a Clist),
    Made(Clist),
}

/// The attributes of a route as the filter has left them so far. Contracts see the `Attrs`.
#[derive(Drop)]
pub struct Running<'a> {
    /// The route's own attributes, while none was changed.
    own: Option<&'a Shared<Attrs>>,
    pref: u32,
    kind: Kind,
    dest: Dest,
    gw: Option<Addr>,
    sender: Option<Addr>,
    peer_id: u32,
    ebgp: bool,
    path: Numbers<'a>,
    origin: Option<Origin>,
    next_hop: Option<Addr>,
    med: Option<u32>,
    lp: Option<u32>,
    igp: Option<u32>,
    coms: Pairs<'a>,
}

impl<'a> Model for Running<'a> {
    ghost use Rattle.std.specs.Prelude.{◌≡◌, IfSome};
    ghost use Rattle.attrs.specs.declared.attributes.Attrs.{Attrs};
    ghost use Rattle.filt_route.specs.Lists.{numbers_of, pairs_of};

    ghost Value = { Attrs };

    ghost view = { λ r. record {
      pref = r.pref;
      kind = r.kind;
      dest = r.dest;
      gw = r.gw;
      sender = r.sender;
      peer_id = r.peer_id;
      ebgp = r.ebgp;
      path = numbers_of r.path;
      origin = r.origin;
      next_hop = r.next_hop;
      med = r.med;
      lp = r.lp;
      igp = r.igp;
      coms = pairs_of r.coms;
    } };

    ghost invariant = { λ r. IfSome r.own (λ own. own.now ≡ record {
      pref = r.pref;
      kind = r.kind;
      dest = r.dest;
      gw = r.gw;
      sender = r.sender;
      peer_id = r.peer_id;
      ebgp = r.ebgp;
      path = numbers_of r.path;
      origin = r.origin;
      next_hop = r.next_hop;
      med = r.med;
      lp = r.lp;
      igp = r.igp;
      coms = pairs_of r.coms;
    }) };
}

impl<'a> Running<'a> {
    /// The attributes as they are before the filter. Takes no memory.
    pub fn of(attrs: &'a Shared<Attrs>) -> Running<'a>
        ensures { result ≡ attrs.now }
    {
        Running {
            own: Some(attrs),
            pref: attrs.pref,
            kind: attrs.kind,
            dest: attrs.dest,
            gw: attrs.gw,
            sender: attrs.sender,
            peer_id: attrs.peer_id,
            ebgp: attrs.ebgp,
            path: Numbers::Lent(&attrs.path),
            origin: attrs.origin,
            next_hop: attrs.next_hop,
            med: attrs.med,
            lp: attrs.lp,
            igp: attrs.igp,
            coms: Pairs::Lent(&attrs.coms),
        }
    }

    /// The attributes as the filter leaves them: the route's own where it changed none.
    pub fn finish(self, alloc: Global) -> Result<Shared<Attrs>, OutOfMemory>
        ensures { IfOk result (λ attrs. attrs ≡ self.entry) }
    {
        match self.own {
            Some(own) => own.share(),
            None => Shared::new(alloc, self.made()?),
        }
    }

    /// The attributes, where what the route lends is copied.
    fn made(self) -> Result<Attrs, OutOfMemory>
        ensures { IfOk result (λ attrs. attrs ≡ self.entry) }
    {
        let Running {
            own: _,
            pref,
            kind,
            dest,
            gw,
            sender,
            peer_id,
            ebgp,
            path,
            origin,
            next_hop,
            med,
            lp,
            igp,
            coms,
        } = self;
        let path = own_path(path)?;
        let coms = own_list(coms)?;
        Ok(Attrs {
            pref,
            kind,
            dest,
            gw,
            sender,
            peer_id,
            ebgp,
            path,
            origin,
            next_hop,
            med,
            lp,
            igp,
            coms,
        })
    }

    /// What an attribute holds. A list that the route lends is lent.
    pub fn read(&self, around: &Surroundings<'a>, attribute: Attribute) -> Result<Value<'a>, Halt>
        ensures { Gives val_of result (attribute_of (around_in around.now) attribute self.now) }
    {
        match attribute {
            Attribute::Net => Ok(Value::Prefix(*around.net)),
            Attribute::Preference => Ok(Value::Int(self.pref)),
            Attribute::Gw => held_addr(self.gw),
            Attribute::From => held_addr(self.sender),
            Attribute::BgpNextHop => held_addr(self.next_hop),
            Attribute::Proto => Ok(around.protocol()),
            Attribute::Source => Ok(Value::Source(self.kind)),
            Attribute::Dest => Ok(Value::Dest(self.dest)),
            Attribute::BgpPath => Ok(path_value(&self.path)?),
            Attribute::BgpOrigin => held_origin(self.origin),
            Attribute::BgpMed => held_number(self.med),
            Attribute::BgpLocalPref => held_number(self.lp),
            Attribute::IgpMetric => held_number(self.igp),
            Attribute::BgpCommunity => Ok(list_value(&self.coms)?),
        }
    }

    #[inline(always)]
    pub(crate) fn pref(&self) -> u32
        ensures { result ≡ self.now.pref }
    {
        self.pref
    }

    #[inline(always)]
    pub(crate) fn med(&self) -> Option<u32>
        ensures { result ≡ self.now.med }
    {
        self.med
    }

    #[inline(always)]
    pub(crate) fn lp(&self) -> Option<u32>
        ensures { result ≡ self.now.lp }
    {
        self.lp
    }

    #[inline(always)]
    pub(crate) fn igp(&self) -> Option<u32>
        ensures { result ≡ self.now.igp }
    {
        self.igp
    }

    #[inline(always)]
    pub(crate) fn path(&self) -> &Path
        ensures { result.now ≡ self.now.path }
    {
        match &self.path {
            Numbers::Lent(path) => *path,
            Numbers::Made(path) => path,
        }
    }

    #[inline(always)]
    pub(crate) fn list(&self) -> &Clist
        ensures { result.now ≡ self.now.coms }
    {
        match &self.coms {
            Pairs::Lent(list) => *list,
            Pairs::Made(list) => list,
        }
    }

    /// Whether an attribute holds anything.
    pub fn is_defined(&self, attribute: Attribute) -> bool
        ensures { result ≡ is_defined attribute self.now }
    {
        match attribute {
            Attribute::Net => true,
            Attribute::Preference => true,
            Attribute::Gw => self.gw.is_some(),
            Attribute::From => self.sender.is_some(),
            Attribute::BgpNextHop => self.next_hop.is_some(),
            Attribute::Proto => true,
            Attribute::Source => true,
            Attribute::Dest => true,
            Attribute::BgpPath => true,
            Attribute::BgpOrigin => self.origin.is_some(),
            Attribute::BgpMed => self.med.is_some(),
            Attribute::BgpLocalPref => self.lp.is_some(),
            Attribute::IgpMetric => self.igp.is_some(),
            Attribute::BgpCommunity => true,
        }
    }

    /// Makes an attribute hold a value. Takes no memory.
    pub fn assign(&mut self, attribute: Attribute, value: Value<'a>)
        requires { IsApplicable (with_attribute attribute (val_of value) self.old) }
        ensures { with_attribute attribute (val_of value.entry) self.old ≡ Ok self.new }
    {
        match attribute {
            Attribute::Net => unreachable!(),
            Attribute::Preference => self.assign_pref(&value),
            Attribute::Gw => self.assign_gw(&value),
            Attribute::From => self.assign_sender(&value),
            Attribute::BgpNextHop => self.assign_next_hop(&value),
            Attribute::Proto => unreachable!(),
            Attribute::Source => unreachable!(),
            Attribute::Dest => self.assign_dest(&value),
            Attribute::BgpPath => self.assign_path(value),
            Attribute::BgpOrigin => self.assign_origin(&value),
            Attribute::BgpMed => self.assign_med(&value),
            Attribute::BgpLocalPref => self.assign_lp(&value),
            Attribute::IgpMetric => self.assign_igp(&value),
            Attribute::BgpCommunity => self.assign_list(value),
        }
    }

    fn assign_pref(&mut self, value: &Value<'_>)
        requires { IsApplicable (with_attribute attributes.Preference (val_of value.now) self.old) }
        ensures { with_attribute attributes.Preference (val_of value.now) self.old ≡ Ok self.new }
    {
        self.pref = int(value);
        self.own = None;
    }

    /// The packets are sent to it.
    fn assign_gw(&mut self, value: &Value<'_>)
        requires { IsApplicable (with_attribute attributes.Gw (val_of value.now) self.old) }
        ensures { with_attribute attributes.Gw (val_of value.now) self.old ≡ Ok self.new }
    {
        self.gw = Some(ip(value));
        self.own = None;
        self.dest = Dest::Unicast;
    }

    fn assign_sender(&mut self, value: &Value<'_>)
        requires { IsApplicable (with_attribute attributes.From (val_of value.now) self.old) }
        ensures { with_attribute attributes.From (val_of value.now) self.old ≡ Ok self.new }
    {
        self.sender = Some(ip(value));
        self.own = None;
    }

    fn assign_next_hop(&mut self, value: &Value<'_>)
        requires { IsApplicable (with_attribute attributes.BgpNextHop (val_of value.now) self.old) }
        ensures { with_attribute attributes.BgpNextHop (val_of value.now) self.old ≡ Ok self.new }
    {
        self.next_hop = Some(ip(value));
        self.own = None;
    }

    /// It leads on to no gateway.
    fn assign_dest(&mut self, value: &Value<'_>)
        requires { IsApplicable (with_attribute attributes.Dest (val_of value.now) self.old) }
        ensures { with_attribute attributes.Dest (val_of value.now) self.old ≡ Ok self.new }
    {
        self.dest = dest(value);
        self.own = None;
        self.gw = None;
    }

    fn assign_origin(&mut self, value: &Value<'_>)
        requires { IsApplicable (with_attribute attributes.BgpOrigin (val_of value.now) self.old) }
        ensures { with_attribute attributes.BgpOrigin (val_of value.now) self.old ≡ Ok self.new }
    {
        self.origin = Some(origin(value));
        self.own = None;
    }

    fn assign_med(&mut self, value: &Value<'_>)
        requires { IsApplicable (with_attribute attributes.BgpMed (val_of value.now) self.old) }
        ensures { with_attribute attributes.BgpMed (val_of value.now) self.old ≡ Ok self.new }
    {
        self.med = Some(int(value));
        self.own = None;
    }

    fn assign_lp(&mut self, value: &Value<'_>)
        requires { IsApplicable (with_attribute attributes.BgpLocalPref (val_of value.now) self.old) }
        ensures { with_attribute attributes.BgpLocalPref (val_of value.now) self.old ≡ Ok self.new }
    {
        self.lp = Some(int(value));
        self.own = None;
    }

    fn assign_igp(&mut self, value: &Value<'_>)
        requires { IsApplicable (with_attribute attributes.IgpMetric (val_of value.now) self.old) }
        ensures { with_attribute attributes.IgpMetric (val_of value.now) self.old ≡ Ok self.new }
    {
        self.igp = Some(int(value));
        self.own = None;
    }

    fn assign_path(&mut self, value: Value<'a>)
        requires { IsApplicable (with_attribute attributes.BgpPath (val_of value) self.old) }
        ensures { with_attribute attributes.BgpPath (val_of value.entry) self.old ≡ Ok self.new }
    {
        self.path = path_kept(value);
        self.own = None;
    }

    fn assign_list(&mut self, value: Value<'a>)
        requires { IsApplicable (with_attribute attributes.BgpCommunity (val_of value) self.old) }
        ensures { with_attribute attributes.BgpCommunity (val_of value.entry) self.old ≡ Ok self.new }
    {
        self.coms = list_kept(value);
        self.own = None;
    }

    /// Makes an attribute hold nothing, a list no elements. Takes no memory.
    pub fn unset(&mut self, alloc: Global, attribute: Attribute)
        requires { IsApplicable (without_attribute attribute self.old) }
        ensures { without_attribute attribute self.old ≡ Ok self.new }
    {
        match attribute {
            Attribute::Net => unreachable!(),
            Attribute::Preference => unreachable!(),
            Attribute::Gw => self.gw = None,
            Attribute::From => unreachable!(),
            Attribute::BgpNextHop => self.next_hop = None,
            Attribute::Proto => unreachable!(),
            Attribute::Source => unreachable!(),
            Attribute::Dest => unreachable!(),
            Attribute::BgpPath => self.path = Numbers::Made(Path::new(alloc)),
            Attribute::BgpOrigin => self.origin = None,
            Attribute::BgpMed => self.med = None,
            Attribute::BgpLocalPref => self.lp = None,
            Attribute::IgpMetric => self.igp = None,
            Attribute::BgpCommunity => self.coms = Pairs::Made(Clist::new(alloc)),
        }
        self.own = None;
    }
}

fn own_path(path: Numbers<'_>) -> Result<Path, OutOfMemory>
    ensures { IfOk result (λ own. own ≡ numbers_of path.entry) }
{
    match path {
        Numbers::Lent(path) => path.copy(),
        Numbers::Made(path) => Ok(path),
    }
}

fn own_list(list: Pairs<'_>) -> Result<Clist, OutOfMemory>
    ensures { IfOk result (λ own. own ≡ pairs_of list.entry) }
{
    match list {
        Pairs::Lent(list) => list.copy(),
        Pairs::Made(list) => Ok(list),
    }
}

fn path_value<'a>(path: &Numbers<'a>) -> Result<Value<'a>, OutOfMemory>
    ensures { IfOk result (λ value. val_of value ≡ VPath (numbers_of path.now)) }
{
    match path {
        Numbers::Lent(path) => Ok(Value::PathOf(*path)),
        Numbers::Made(path) => Ok(Value::Path(path.copy()?)),
    }
}

fn list_value<'a>(list: &Pairs<'a>) -> Result<Value<'a>, OutOfMemory>
    ensures { IfOk result (λ value. val_of value ≡ VClist (pairs_of list.now)) }
{
    match list {
        Pairs::Lent(list) => Ok(Value::ClistOf(*list)),
        Pairs::Made(list) => Ok(Value::Clist(list.copy()?)),
    }
}

fn path_kept(value: Value<'_>) -> Numbers<'_>
    requires { IsApplicable (path_in (val_of value)) }
    ensures { path_in (val_of value.entry) ≡ Ok (numbers_of result) }
{
    match value {
        Value::Path(path) => Numbers::Made(path),
        Value::PathOf(path) => Numbers::Lent(path),
        _ => unreachable!(),
    }
}

fn list_kept(value: Value<'_>) -> Pairs<'_>
    requires { IsApplicable (clist_in (val_of value)) }
    ensures { clist_in (val_of value.entry) ≡ Ok (pairs_of result) }
{
    match value {
        Value::Clist(list) => Pairs::Made(list),
        Value::ClistOf(list) => Pairs::Lent(list),
        _ => unreachable!(),
    }
}

fn held_addr<'a>(held: Option<Addr>) -> Result<Value<'a>, Halt>
    ensures { Gives val_of result (defined_as VIp held) }
{
    match held {
        Some(addr) => Ok(Value::Ip(addr)),
        None => Err(Halt::Fault(FilterFault::Undefined)),
    }
}

fn held_number<'a>(held: Option<u32>) -> Result<Value<'a>, Halt>
    ensures { Gives val_of result (defined_as VInt held) }
{
    match held {
        Some(number) => Ok(Value::Int(number)),
        None => Err(Halt::Fault(FilterFault::Undefined)),
    }
}

fn held_origin<'a>(held: Option<Origin>) -> Result<Value<'a>, Halt>
    ensures { Gives val_of result (defined_as VOrigin held) }
{
    match held {
        Some(origin) => Ok(Value::Origin(origin)),
        None => Err(Halt::Fault(FilterFault::Undefined)),
    }
}
