ghost use Rattle.std.specs.Prelude.{◌≡◌, ◌+◌, ◌-◌, ◌<◌, ◌≤◌, length, None, replicate, IfOk, OnOk, slice_get, slice_set};
ghost use Rattle.shen_graph.specs.Graph.{blank};
ghost use Rattle.shen_graph.specs.GraphText.{with_references, with_whole_row};
ghost use Rattle.shen_graph.specs.Found.{with_names};

use crate::NoMemory;
use crate::found::add_names;
use crate::graph_text::GraphText;
use crate::name::Name;
use std::alloc::Global;
use std::marker::Model;

// An object, with its name.
#[derive(Drop)]
pub(crate) struct Object {
    pub(crate) name: Name,
    pub(crate) refs: Vec<Option<Name>>,
    pub(crate) nums: Vec<u64>,
}

impl Model for Object {
    ghost use Rattle.shen_graph.specs.GraphText.{Row};

    ghost Value = { Row };

    ghost view = { λ object. record { name = object.name; refs = object.refs.items; nums = object.nums.items } };
}

// How many words an object with these fields has.
fn words_for(references: &[Option<Name>], numbers: &[u64]) -> u64
    ensures { result ≡ 3 + length references.now + length numbers.now }
{
    3 + references.len() as u64 + numbers.len() as u64
}

// Adds references to the last row of a text.
fn put_references(text: &mut GraphText, references: &[Option<Name>])
    requires row { 0 < length text.old.rows }
    requires room { length references.now ≤ text.old.spare }
    ensures { text.new ≡ with_references text.old references.now }
{
    for reference in references {
        text.reference(*reference);
    }
}

impl Object {
    ghost use Rattle.shen_graph.specs.GraphText.{Row};

    // An object with so many null references and zeros.
    pub(crate) fn blank(alloc: Global, name: Name, refs: u32, nums: u32) -> Result<Object, NoMemory>
        ensures { IfOk result (λ object. object ≡ record { name = name; refs = replicate refs None; nums = replicate nums 0 }) }
    {
        Ok(Object {
            name,
            refs: vec![in alloc; None; refs as usize]?,
            nums: vec![in alloc; 0; nums as usize]?,
        })
    }

    pub(crate) fn field(&self, field: u32) -> Option<Option<Name>>
        ensures { result ≡ slice_get self.now.refs field }
    {
        self.refs.get(field as usize).copied()
    }

    pub(crate) fn number(&self, index: u32) -> Option<u64>
        ensures { result ≡ slice_get self.now.nums index }
    {
        self.nums.get(index as usize).copied()
    }

    // Adds the names that the references hold.
    pub(crate) fn add_fields(&self, found: &mut Vec<Name>) -> Result<(), NoMemory>
        ensures { OnOk result (found.new.items ≡ with_names found.old.items self.now.refs) }
    {
        add_names(found, &self.refs)
    }

    // How many words it has.
    pub(crate) fn words(&self) -> u64
        ensures { result ≡ 3 + length self.now.refs + length self.now.nums }
    {
        words_for(&self.refs, &self.nums)
    }

    // Adds its row to a text.
    pub(crate) fn put(&self, text: &mut GraphText)
        requires { 3 + length self.now.refs + length self.now.nums ≤ text.old.spare }
        ensures { text.new ≡ with_whole_row text.old self.now }
    {
        text.object(self.name);
        put_references(text, &self.refs);
        text.add_numbers(&self.nums);
    }

    pub(crate) fn set_field(&mut self, field: u32, value: Option<Name>)
        requires { field < length self.old.refs }
        ensures { self.new ≡ record self.old { refs = slice_set self.old.refs field value } }
    {
        self.refs[field as usize] = value;
    }

    pub(crate) fn set_number(&mut self, index: u32, value: u64)
        requires { index < length self.old.nums }
        ensures { self.new ≡ record self.old { nums = slice_set self.old.nums index value } }
    {
        self.nums[index as usize] = value;
    }
}
