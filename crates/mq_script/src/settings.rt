//! The settings that the first lines of a script tell.
ghost use Rattle.std.specs.Prelude.{◌≡◌, ◌≢◌, ◌↔◌, Ok, true, List, [], IfOk, IsTrue};
ghost use Rattle.mq_play.specs.declared.line.SettingLine.{SettingLine};
ghost use Rattle.mq_play.specs.declared.line.SettingLine.TheVariants as told;
ghost use Rattle.mq_play.specs.Settings.{plan_of};
ghost use Rattle.mq_script.specs.Settings.{Adds, AreApart, Grows, IsSettings, known_or, with_line};

use crate::orders::{are_apart, may_end};
use mq_addr::{Addr, Kind, Prefix, Range};
use mq_machine::Setup;
use mq_play::{Plan, SettingLine};
use mq_policy::{Policy, Rule};
use mq_talk::Config;
use mq_target::{Name, Template};
use mq_wire::{NoMemory, Seq};
use std::alloc::Global;
use std::marker::Model;

/// The most lines that tell the address of a name.
const MOST_NAMES: u32 = 64;

/// The most rules.
const MOST_RULES: u32 = 256;

/// The most blocks of a kind.
const MOST_SHARES: usize = 16;

/// The most routes.
const MOST_ROUTES: usize = 32;

/// The most hosts.
const MOST_HOSTS: usize = 64;

/// The settings that were told so far.
#[derive(Drop)]
pub struct Settings {
    alloc: Global,
    workers: u32,
    udp: Option<Template>,
    ip: Option<Template>,
    policy: Policy,
    names: u32,
    rules: u32,
    pool: Vec<Prefix>,
    reach: Vec<Prefix>,
    routes: Vec<Range>,
    hosts: Vec<Addr>,
    mtu: u32,
    history: u32,
}

impl Model for Settings {
    ghost use Rattle.std.specs.Prelude.{◌≡◌, ◌≤◌, length};
    ghost use Rattle.mq_addr.specs.declared.kind.Kind.TheVariants as kind;
    ghost use Rattle.mq_script.specs.Settings.{Made, made_code, known_or};

    ghost Value = { Made };

    ghost coded = { made_code };

    ghost view = { λ s. record {
      plan = record {
        workers = s.workers;
        setup = record { udp = known_or kind.Udp s.udp; ip = known_or kind.Ip s.ip; policy = s.policy; mtu = s.mtu; pump = s.workers };
        book = record { pool = s.pool.items; reach = s.reach.items; routes = s.routes.items; history = s.history; workers = s.workers };
        hosts = s.hosts.items;
      };
      names = s.names;
      rules = s.rules;
    } };

    ghost invariant = { λ s. (length s.policy.rules ≡ s.rules) × (s.rules ≤ 256) };
}

impl Settings {
    /// No setting was told. Takes no memory.
    #[tactic(auto, unfolding(mq_play::specs::Settings::plain_plan))]
    pub fn new(alloc: Global) -> Settings
        ensures { IsSettings result [] }
    {
        Settings {
            alloc,
            workers: 1,
            udp: None,
            ip: None,
            policy: Policy::new(alloc),
            names: 0,
            rules: 0,
            pool: Vec::new(alloc),
            reach: Vec::new(alloc),
            routes: Vec::new(alloc),
            hosts: Vec::new(alloc),
            mtu: 1_500,
            history: 262_144,
        }
    }

    /// Puts a setting behind the others. False, and nothing changes, exactly where it may not stand behind them.
    /// `NoMemory` changes nothing.
    pub fn add(&mut self, line: SettingLine) -> Result<bool, NoMemory>
        ensures adds { (lines : List SettingLine) → IsSettings self.old lines → Adds self.old lines line result self.new }
        ensures else_same { result ≢ Ok true → self.new ≡ self.old }
    {
        self.put(line)
    }

    /// The plan that the settings make.
    pub fn plan(self) -> Result<Plan, NoMemory>
        ensures now { IfOk result (λ plan. plan ≡ self.plan) }
        ensures of_lines { IfOk result (λ plan. (lines : List SettingLine) → IsSettings self lines → plan ≡ plan_of lines) }
    {
        let udp = template_or(self.alloc, Kind::Udp, self.udp)?;
        let ip = template_or(self.alloc, Kind::Ip, self.ip)?;
        Ok(Plan {
            workers: self.workers,
            setup: Setup {
                udp,
                ip,
                policy: self.policy,
                mtu: self.mtu,
                pump: self.workers,
            },
            book: Config {
                pool: Seq::from_vec(self.pool),
                reach: Seq::from_vec(self.reach),
                routes: Seq::from_vec(self.routes),
                history: self.history,
                workers: self.workers,
            },
            hosts: Seq::from_vec(self.hosts),
        })
    }

    fn put(&mut self, line: SettingLine) -> Result<bool, NoMemory>
        ensures { Grows self.old line result self.new }
    {
        match line {
            SettingLine::Workers(count) => self.put_workers(count),
            SettingLine::Template { kind, template } => self.put_template(kind, template),
            SettingLine::Name { name, addr } => self.put_name(name, addr),
            SettingLine::Rule(rule) => self.put_rule(rule),
            SettingLine::Pool(block) => self.put_pool(block),
            SettingLine::Reach(block) => self.put_reach(block),
            SettingLine::Route(range) => self.put_route(range),
            SettingLine::Host(addr) => self.put_host(addr),
            SettingLine::Mtu(size) => self.put_mtu(size),
            SettingLine::History(size) => self.put_history(size),
        }
    }

    fn put_workers(&mut self, count: u32) -> Result<bool, NoMemory>
        ensures { Grows self.old (told.Workers count) result self.new }
    {
        self.workers = count;
        Ok(true)
    }

    fn put_mtu(&mut self, size: u32) -> Result<bool, NoMemory>
        ensures { Grows self.old (told.Mtu size) result self.new }
    {
        self.mtu = size;
        Ok(true)
    }

    fn put_history(&mut self, size: u32) -> Result<bool, NoMemory>
        ensures { Grows self.old (told.History size) result self.new }
    {
        self.history = size;
        Ok(true)
    }

    fn put_template(&mut self, kind: Kind, template: Template) -> Result<bool, NoMemory>
        ensures { Grows self.old (told.Template kind template) result self.new }
    {
        match kind {
            Kind::Udp => self.udp = Some(template),
            Kind::Ip => self.ip = Some(template),
        }
        Ok(true)
    }

    fn put_name(&mut self, name: Name, addr: Addr) -> Result<bool, NoMemory>
        ensures { Grows self.old (told.Name name addr) result self.new }
    {
        if self.names >= MOST_NAMES {
            return Ok(false);
        }
        self.policy.add_name(self.alloc, &name, addr)?;
        self.names += 1;
        Ok(true)
    }

    fn put_rule(&mut self, rule: Rule) -> Result<bool, NoMemory>
        ensures { Grows self.old (told.Rule rule) result self.new }
    {
        if self.rules >= MOST_RULES {
            return Ok(false);
        }
        self.policy.add_rule(rule)?;
        self.rules += 1;
        Ok(true)
    }

    /// Whether a block has no address of an earlier one.
    fn is_apart(&self, block: &Prefix) -> bool
        ensures { IsTrue result ↔ AreApart self.now.plan.book.pool block.now × AreApart self.now.plan.book.reach block.now }
    {
        are_apart(self.pool.as_slice(), block) && are_apart(self.reach.as_slice(), block)
    }

    fn put_pool(&mut self, block: Prefix) -> Result<bool, NoMemory>
        ensures { Grows self.old (told.Pool block) result self.new }
    {
        if self.pool.len() >= MOST_SHARES || !self.is_apart(&block) {
            return Ok(false);
        }
        self.pool.push(block)?;
        Ok(true)
    }

    fn put_reach(&mut self, block: Prefix) -> Result<bool, NoMemory>
        ensures { Grows self.old (told.Reach block) result self.new }
    {
        if self.reach.len() >= MOST_SHARES || !self.is_apart(&block) {
            return Ok(false);
        }
        self.reach.push(block)?;
        Ok(true)
    }

    fn put_route(&mut self, range: Range) -> Result<bool, NoMemory>
        ensures { Grows self.old (told.Route range) result self.new }
    {
        if self.routes.len() >= MOST_ROUTES || !may_end(self.routes.as_slice(), &range) {
            return Ok(false);
        }
        self.routes.push(range)?;
        Ok(true)
    }

    fn put_host(&mut self, addr: Addr) -> Result<bool, NoMemory>
        ensures { Grows self.old (told.Host addr) result self.new }
    {
        if self.hosts.len() >= MOST_HOSTS {
            return Ok(false);
        }
        self.hosts.push(addr)?;
        Ok(true)
    }
}

/// The template that was told, or the well-known one.
fn template_or(alloc: Global, kind: Kind, template: Option<Template>) -> Result<Template, NoMemory>
    ensures { IfOk result (λ found. found ≡ known_or kind template) }
{
    match template {
        Some(template) => Ok(template),
        None => Template::well_known(alloc, kind),
    }
}
