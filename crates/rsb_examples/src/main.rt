//! What users do with sets of ranges: each module is a short program, which `main` runs one after
//! the other. With an argument it times the union of many sets, and runs none of them.
#![tactic(auto)]

pub mod acknowledged;
pub mod allow_list;
pub mod any_streams;
pub mod blocks;
pub mod calendar;
pub mod character_classes;
pub mod first_steps;
pub mod free_space;
pub mod logs;
pub mod many_sets;
pub mod packets;
pub mod rooms;
pub mod routing;
pub mod shifts;
pub mod votes;
pub mod weekdays;

use std::{env, io};

fn main(rt: HostRuntime) -> io::Result<()> {
    let mut words = env::args(&rt)?;
    let _program = words.next();
    if words.next().is_some() {
        return many_sets::time(&rt);
    }
    show_sets(&rt)?;
    show_tables(&rt)?;
    show_many(&rt)
}

// Runs the programs over one set or two.
fn show_sets(rt: &HostRuntime) -> io::Result<()> {
    println!(rt; "# first steps")?;
    first_steps::show(rt.alloc(), rt)?;
    println!(rt; "# allow-list")?;
    allow_list::show(rt.alloc(), rt)?;
    println!(rt; "# character classes")?;
    character_classes::show(rt.alloc(), rt)?;
    println!(rt; "# weekdays")?;
    weekdays::show(rt.alloc(), rt)
}

// Runs the programs that keep a table for a user.
fn show_tables(rt: &HostRuntime) -> io::Result<()> {
    println!(rt; "# free space")?;
    free_space::show(rt.alloc(), rt)?;
    println!(rt; "# blocks")?;
    blocks::show(rt.alloc(), rt)?;
    println!(rt; "# packets")?;
    packets::show(rt.alloc(), rt)?;
    println!(rt; "# acknowledged")?;
    acknowledged::show(rt.alloc(), rt)?;
    println!(rt; "# routing")?;
    routing::show(rt.alloc(), rt)?;
    println!(rt; "# calendar")?;
    calendar::show(rt.alloc(), rt)
}

// Runs the programs over many sets or streams.
fn show_many(rt: &HostRuntime) -> io::Result<()> {
    println!(rt; "# rooms")?;
    rooms::show(rt.alloc(), rt)?;
    println!(rt; "# shifts")?;
    shifts::show(rt.alloc(), rt)?;
    println!(rt; "# votes")?;
    votes::show(rt.alloc(), rt)?;
    println!(rt; "# logs")?;
    logs::show(rt.alloc(), rt)?;
    println!(rt; "# any streams")?;
    any_streams::show(rt.alloc(), rt)?;
    println!(rt; "# many sets")?;
    many_sets::show(rt.alloc(), rt)
}
