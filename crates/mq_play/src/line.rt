//! The lines of a script.

use crate::setting::Setting;
use mq_addr::{Addr, Kind, Prefix, Range};
use mq_machine::Event;
use mq_policy::Rule;
use mq_target::{Name, Template};

/// One setting.
#[derive(Drop)]
pub enum SettingLine {
    /// How many workers there are, 1 to 4. The last one counts.
    Workers(u32),
    /// The template of the tunnels of this kind, which is its own kind too. The last one counts.
    Template { kind: Kind, template: Template },
    /// A name and its address. The last line of a name counts.
    Name { name: Name, addr: Addr },
    /// A rule, behind the others.
    Rule(Rule),
    /// One more block of which clients are given addresses.
    Pool(Prefix),
    /// One more block to which clients may lead.
    Reach(Prefix),
    /// One more way that clients are offered.
    Route(Range),
    /// One more host of the simulated network.
    Host(Addr),
    /// The most bytes of an IP packet, 1,280 to 65,535. The last one counts.
    Mtu(u32),
    /// How many entries the book's history holds, 4 to 262,144. The last one counts.
    History(u32),
}

/// One line of a script.
#[derive(Drop)]
pub enum Line {
    /// An empty line or a comment.
    Blank,
    /// A setting, before the first other line that isn't blank.
    Setting(Setting),
    /// Something happens.
    Happens(Event),
    /// Up to so many steps of this actor: a worker's number, or 4,294,967,295 for the network.
    Steps { actor: u32, count: u32 },
    /// Up to so many steps, of all actors in turn.
    Run { count: u32 },
}
