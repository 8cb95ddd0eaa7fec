//! Macros whose lists lead back to them: the macros and the names in their lists as a graph.

ghost use Rattle.std.specs.Prelude.{◌≡◌, ◌<◌, ◌^◌, ℕ, length, map, IfOk, OnOk, IfSome, ◌++◌, bytes_eq, List};
ghost use Rattle.p10_base.specs.Words.{plain_word, spellings_of};
ghost use Rattle.std.specs.Option.{option_to_list};
ghost use Rattle.std.specs.List.{All, list_any, filter_map};
ghost use Rattle.p10_direct.specs.Form.{plain_definition};
ghost use Rattle.p10_base.specs.Names.{place_in};
ghost use Rattle.p10_pprules.specs.Recursion.{parameters_of};
ghost use Rattle.p10_pprules.specs.private.Listing.{used_by, used_places, has_number, returns_to};
ghost use Rattle.p10_pprules.specs.private.Graphs.{HasNames, AreNumbersOf, AddsUses, AddsEdges};

use p10_base::{Kind, NameList, Word};
use p10_direct::Definition;
use p10_graph::{Graph, components};
use std::alloc::{AllocError, Global};

/// The macros that are defined, in the order of their first definitions. There are fewer than 2^32.
pub fn macros_of<'s>(
    alloc: Global,
    definitions: &[Definition<'_, 's>],
) -> Result<NameList<'s>, AllocError>
    ensures names { IfOk result (HasNames (map plain_definition definitions.now)) }
    ensures few { IfOk result (λ names. length names < 2 ^ 32) }
{
    let mut names = NameList::new(alloc);
    for definition in definitions {
        names.add(definition.name.text)?;
    }
    // A graph counts its nodes in 32 bits. That many names never fit memory, and are answered as out of memory.
    if names.count() > u32::MAX as usize {
        return Err(AllocError);
    }
    Ok(names)
}

/// The number of each macro's strongly connected component, in the graph in which an edge leads from a
/// macro to each that one of its definitions uses.
pub fn component_numbers(
    alloc: Global,
    names: &NameList<'_>,
    definitions: &[Definition<'_, '_>],
) -> Result<Vec<u32>, AllocError>
    requires { length names.now < 2 ^ 32 }
    ensures { IfOk result (λ numbers. AreNumbersOf names.now (map plain_definition definitions.now) numbers.items) }
{
    let mut graph = Graph::new(alloc, names.count() as u32)?;
    for definition in definitions {
        add_uses(alloc, names, definition, &mut graph)?;
    }
    components(alloc, &graph)
}

/// Adds the edges from the macro of a definition to the macros that the definition uses.
fn add_uses(
    alloc: Global,
    names: &NameList<'_>,
    definition: &Definition<'_, '_>,
    graph: &mut Graph,
) -> Result<(), AllocError>
    requires few { length names.now < 2 ^ 32 }
    requires nodes { length graph.old ≡ length names.now }
    ensures { OnOk result (AddsUses names.now (plain_definition definition.now) graph.old graph.new) }
{
    match place(names, definition.name.text) {
        Some(own) => {
            let places = used(alloc, names, definition)?;
            add_edges(own, places.as_slice(), graph)
        }
        None => Ok(()),
    }
}

/// Adds edges from a node to nodes.
fn add_edges(from: u32, ends: &[u32], graph: &mut Graph) -> Result<(), AllocError>
    requires from { from < length graph.old }
    requires ends { All (λ end. end < length graph.old) ends.now }
    ensures { OnOk result (AddsEdges from ends.now graph.old graph.new) }
{
    for end in ends {
        graph.add_edge(from, *end)?;
    }
    Ok(())
}

/// Whether the list of a definition leads back to the macro that it defines. The numbers are those of
/// the components of all macros.
pub fn is_recursive(
    alloc: Global,
    names: &NameList<'_>,
    numbers: &[u32],
    definition: &Definition<'_, '_>,
) -> Result<bool, AllocError>
    requires few { length names.now < 2 ^ 32 }
    requires numbers { length numbers.now ≡ length names.now }
    ensures { IfOk result (λ is. is ≡ returns_to names.now numbers.now (plain_definition definition.now)) }
{
    match place(names, definition.name.text) {
        Some(own) => {
            let places = used(alloc, names, definition)?;
            Ok(one_has(numbers, numbers[own as usize], places.as_slice()))
        }
        None => Ok(false),
    }
}

/// Whether one of the places has the number.
fn one_has(numbers: &[u32], number: u32, places: &[u32]) -> bool
    requires { All (λ place. place < length numbers.now) places.now }
    ensures { result ≡ has_number numbers.now number places.now }
{
    for place in places {
        if numbers[*place as usize] == number {
            return true;
        }
    }
    false
}

/// The place of a name among the macros.
fn place(names: &NameList<'_>, name: &[u8]) -> Option<u32>
    requires { length names.now < 2 ^ 32 }
    ensures value { result ≡ place_in names.now name.now }
    ensures within { IfSome result (λ place. place < length names.now) }
{
    names.place(name).map(|place| place as u32)
}

/// The places of the macros that a definition uses.
fn used(
    alloc: Global,
    names: &NameList<'_>,
    definition: &Definition<'_, '_>,
) -> Result<Vec<u32>, AllocError>
    requires { length names.now < 2 ^ 32 }
    ensures value { IfOk result (λ places. places.items ≡ used_places names.now (plain_definition definition.now)) }
    ensures within { IfOk result (λ places. All (λ place. place < length names.now) places.items) }
{
    let parameters = parameter_names(alloc, definition)?;
    used_in(alloc, names, &parameters, definition.body)
}

/// The places of the macros that the words of a list use, where these are the parameters.
fn used_in(
    alloc: Global,
    names: &NameList<'_>,
    parameters: &NameList<'_>,
    words: &[Word<'_>],
) -> Result<Vec<u32>, AllocError>
    requires { length names.now < 2 ^ 32 }
    ensures { IfOk result (λ places. places.items ≡ filter_map (used_by names.now parameters.now) (map plain_word words.now)) }
{
    let mut places = Vec::new(alloc);
    for word in words {
        push_used(names, parameters, word, &mut places)?;
    }
    Ok(places)
}

/// Puts the place of the macro that a word of a list uses after the others.
fn push_used(
    names: &NameList<'_>,
    parameters: &NameList<'_>,
    word: &Word<'_>,
    places: &mut Vec<u32>,
) -> Result<(), AllocError>
    requires { length names.now < 2 ^ 32 }
    ensures { OnOk result (places.new.items ≡ places.old.items ++ option_to_list (used_by names.now parameters.now (plain_word word.now))) }
{
    if let Some(place) = used_macro(names, parameters, word) {
        places.push(place)?;
    }
    Ok(())
}

/// The macro that a word of a list uses, unless it names a parameter.
fn used_macro(names: &NameList<'_>, parameters: &NameList<'_>, word: &Word<'_>) -> Option<u32>
    requires { length names.now < 2 ^ 32 }
    ensures { result ≡ used_by names.now parameters.now (plain_word word.now) }
{
    if matches!(word.kind, Kind::Name) && !parameters.contains(word.text) {
        place(names, word.text)
    } else {
        None
    }
}

/// The names of a definition's parameters.
fn parameter_names<'s>(
    alloc: Global,
    definition: &Definition<'_, 's>,
) -> Result<NameList<'s>, AllocError>
    ensures { IfOk result (λ names. (text : List ℕ) → list_any (bytes_eq text) names ≡ list_any (bytes_eq text) (spellings_of (parameters_of (plain_definition definition.now)))) }
{
    match &definition.parameters {
        None => Ok(NameList::new(alloc)),
        Some(words) => names_of(alloc, words.as_slice()),
    }
}

/// The texts of words, each once.
fn names_of<'s>(alloc: Global, words: &[Word<'s>]) -> Result<NameList<'s>, AllocError>
    ensures { IfOk result (λ names. (text : List ℕ) → list_any (bytes_eq text) names ≡ list_any (bytes_eq text) (spellings_of (map plain_word words.now))) }
{
    let mut names = NameList::new(alloc);
    for word in words {
        names.add(word.text)?;
    }
    Ok(names)
}
