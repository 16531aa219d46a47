//! The operators of a buffer's module of which changes make anything, listed.
ghost use Rattle.std.specs.Prelude.{◌≡◌, ◌++◌, IfErr, IfOk};
ghost use Rattle.teddertempo_c.specs.Sites.{site_rows_of, SitesAreListed, HoldsRows, IsWhyNone, ListsSites};

use crate::change_options::{ChangeOptions, are_bad, change_number, changes_of};
use crate::options::function_of;
use crate::outcome::{Outcome, refusal_by, without_place};
use crate::report::{Report, report_of, report_on};
use module_changes::{Site, sites_of};
use module_rewrites::{MutationError, Reason, chosen_entries, index_of};
use std::alloc::{AllocError, Global};
use std::mem::size_of;
use wasm_module::read_module;

/// An operator, and a change that makes something of it. C passes a pointer to some: each is `struct teddertempo_site` of the header.
#[repr(C)]
#[derive(Clone, Copy)]
pub struct SiteRow {
    /// The function, by its index among all functions of the module, imported ones first.
    pub function: u64,
    /// The operator of its body, counted from 0.
    pub operator_index: u64,
    /// The number of the change.
    pub change: u64,
}

const _: () = prove!(size_of::<SiteRow>() == 24);

// Adds a row for each site of the function with the index.
fn add_rows(function: usize, sites: &[Site], rows: &mut Vec<SiteRow>) -> Result<(), AllocError>
    ensures added { IfOk result (λ _. rows.new.items
        ≡ rows.old.items ++ site_rows_of function sites.now) }
{
    for site in sites {
        rows.push(SiteRow {
            function: function as u64,
            operator_index: site.operator as u64,
            change: change_number(site.change) as u64,
        })?;
    }
    Ok(())
}

// The rows of the functions that may be changed.
fn rows_in(alloc: Global, bytes: &[u8], options: &ChangeOptions) -> Result<Vec<SiteRow>, Reason>
    ensures listed { IfOk result (λ rows. SitesAreListed options.now bytes.now rows.items) }
    ensures none { IfErr result (IsWhyNone options.now bytes.now) }
{
    let changes = changes_of(alloc, options)?;
    let module = match read_module(alloc, bytes) {
        Ok(module) => module,
        Err(e) => return Err(Reason::Refused(MutationError::Read(e))),
    };
    let chosen = match chosen_entries(&module.layout, function_of(options.only)) {
        Ok(chosen) => chosen,
        Err(reason) => return Err(reason),
    };
    let mut rows = Vec::new(alloc);
    let from = chosen.start;
    let to = chosen.end;
    for n in from..to {
        let sites = sites_of(alloc, bytes, &module, n, &changes)?;
        add_rows(index_of(&module.layout, n), &sites, &mut rows)?;
    }
    Ok(rows)
}

// Writes as many of the rows to the front of the room as there is room for, and answers how many they are.
fn hold_rows(rows: &[SiteRow], room: &mut [SiteRow]) -> usize
    ensures { HoldsRows rows.now room.old result room.new }
{
    let count = rows.len().min(room.len());
    room[..count].copy_from_slice(&rows[..count]);
    rows.len()
}

/// Lists the sites of the module that the bytes are, as the options say, as far as there is room, and reports how many there are.
pub fn list_sites(
    alloc: Global,
    bytes: &[u8],
    options: &ChangeOptions,
    room: &mut [SiteRow],
    report: &mut Report,
) -> usize
    ensures { ListsSites options.now bytes.now room.old result room.new report.new }
{
    if are_bad(options) {
        *report = report_on(without_place(Outcome::BadOptions));
        return 0;
    }
    match rows_in(alloc, bytes, options) {
        Ok(rows) => {
            let count = hold_rows(&rows, room);
            *report = report_of(Outcome::Done, 0, 0, count, 0);
            count
        }
        Err(reason) => {
            *report = report_on(refusal_by(reason));
            0
        }
    }
}
