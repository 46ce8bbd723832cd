//! Laws of runs, and of linked files that are loaded. These functions do nothing: each is there for its contract.

ghost use Rattle.omf_cli.specs.Headline.{Headline};
ghost use Rattle.omf_cli.specs.Laws.{InputsAreAskedForOnce, NoMoreIsAskedFor, ScriptsAreAskedForOnce};
ghost use Rattle.omf_cli.specs.Loads.{LinkedFilesBegin};

use answers::{
    commands_are_answered, dumps_are_answered, libraries_are_answered, links_are_answered,
    load_files_are_compacted, scripts_are_answered, sources_are_listed,
};
use link_laws::{
    formulas_are_spelled, linked_names_are_read_back, parts_are_of_the_file, patches_are_by_pages,
};
use link_meaning::{
    files_have_one_answer, linked_files_are_loaded, linked_files_have_their_headers_and_cells,
};
use list_laws::{files_have_one_listing, listings_are_read_again};
use loader_agrees::commands_have_one_reply;
use omf_records::files_are_read_in_one_way;
use source_meaning::{objects_are_files, sources_have_one_object};

/// A run of any command that has read its inputs, and so one that ends with a failed write, has asked the store for each of them once, and for
/// nothing else; it asks for no more however it ends, and no more than the script where that couldn't be read. A script that is run may load
/// files besides.
pub fn inputs_are_asked_for_once()
    ensures inputs { InputsAreAskedForOnce }
    ensures no_more { NoMoreIsAskedFor }
    ensures scripts { ScriptsAreAskedForOnce }
{}

/// A load of a file that the linker wrote, in which nothing names a skipped segment, is answered by its program, or refused for a reason
/// outside the file: 255 users, a read that failed, no handle, no room, or no memory. The paths of its rows have to hold the run-time
/// library files with which it was linked.
pub fn linked_files_begin()
    ensures { LinkedFilesBegin }
{}

/// The headline: a source has one object at most, which is a file; files have one load file or one first fault at most; the load file
/// represents the linked cells, and its load begins a program; a command has one reply at most; a file has one listing and one source at
/// most, and the object that is assembled from that source has it too. And each of these inputs has an answer, which isn't Memory.
pub fn headline()
    ensures { Headline }
{
    sources_have_one_object();
    objects_are_files();
    files_have_one_answer();
    linked_files_have_their_headers_and_cells();
    linked_files_are_loaded();
    linked_files_begin();
    commands_have_one_reply();
    files_are_read_in_one_way();
    linked_names_are_read_back();
    parts_are_of_the_file();
    formulas_are_spelled();
    patches_are_by_pages();
    files_have_one_listing();
    listings_are_read_again();
    links_are_answered();
    libraries_are_answered();
    dumps_are_answered();
    load_files_are_compacted();
    sources_are_listed();
    scripts_are_answered();
    commands_are_answered();
}
