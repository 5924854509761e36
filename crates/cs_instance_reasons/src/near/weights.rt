// How many faults causes count as.
use crate::InstanceCause;
use crate::graph::InstanceGraph;
use crate::near::names::are_near;
use cs_flat::Item;
use cs_instance::Rule;

/// More causes than that are counted one by one.
const MOST_COMPARED: usize = 64;

/// How many edits apart a key and a label may be to be taken for one name.
const MOST_EDITS: usize = 2;

/// How many faults these causes are that lead nowhere: as many as there are, where a missing label and a key that isn't
/// allowed and is nearly the same are one fault.
pub(crate) fn weight(graph: &InstanceGraph<'_>, leaves: &[InstanceCause]) -> usize {
    if leaves.len() > MOST_COMPARED {
        return leaves.len();
    }
    let mut renamed = 0;
    let mut extras = 0;
    for leaf in leaves {
        match leaf {
            InstanceCause::Missing { declaration, rule } => {
                if is_renamed(graph, *declaration, *rule, leaves) && renamed < leaves.len() {
                    renamed += 1;
                }
            }
            InstanceCause::Extra { .. } => {
                if extras < leaves.len() {
                    extras += 1;
                }
            }
            InstanceCause::Part { .. }
            | InstanceCause::Alternative { .. }
            | InstanceCause::Member { .. }
            | InstanceCause::Element { .. }
            | InstanceCause::Unmet
            | InstanceCause::Few
            | InstanceCause::Many
            | InstanceCause::NoAlternative => {}
        }
    }
    leaves.len().saturating_sub(renamed.min(extras))
}

/// Whether some key that isn't allowed is nearly the label of a declaration.
fn is_renamed(
    graph: &InstanceGraph<'_>,
    declaration: usize,
    rule: usize,
    leaves: &[InstanceCause],
) -> bool {
    let Some(Rule::Struct { fields, .. }) = graph.book.numbering.rules.get(rule) else {
        return false;
    };
    let Some(field) = fields.all.get(declaration) else {
        return false;
    };
    for leaf in leaves {
        if let InstanceCause::Extra { member, item } = leaf
            && is_nearly(graph, *item, *member, field.label)
        {
            return true;
        }
    }
    false
}

/// Whether the key at a place of a map is nearly this label.
fn is_nearly(graph: &InstanceGraph<'_>, item: usize, member: usize, label: &str) -> bool {
    if item >= graph.flat.len() {
        return false;
    }
    match graph.flat.item(item) {
        Item::Object(members) => match members.get(member) {
            None => false,
            Some((key, _value)) => are_near(key.as_bytes(), label.as_bytes(), MOST_EDITS),
        },
        Item::Null | Item::Bool(_) | Item::Int(_) | Item::Text(_) | Item::List(_) => false,
    }
}
