// A data folder in memory.
ghost use Rattle.std.specs.Prelude.{◌≡◌, ◌≤◌, ◌||◌, [], map, not, false, is_none, length, string_bytes, option_map, Some, None, IfOk, IfErr, IfSome, OnOk, OnErr};
ghost use Rattle.base_devices.specs.Cause.{HasCause};
ghost use Rattle.base_devices.specs.States.{Opens, last_opened};
ghost use Rattle.base_devices.specs.DataFolder.{with_node, moved_node, timed_file, with_empty_file, with_folder};
ghost use Rattle.memory_devices.specs.Nodes.{node_of, nodes_at, tree_at, is_file, is_placed, may_make, may_begin, may_move, holds_nothing, Rooted, HasNode, HasTree, begun_if, tried_begin, tried_make, tried_move, with_longer};
ghost use Rattle.memory_devices.specs.Counts.{is_to_fail, counted, tried, FailsWhere, FailsUnless, uncounted};
ghost use Rattle.memory_devices.specs.Listed.{ListsNodes, ListsNodesWithin, ReadsKnown, known_bytes};
ghost use Rattle.memory_devices.specs.Locks.{names_in};

use crate::failing::Failing;
use crate::nodes::{
    MemNode, empty_file, extend_file, first_lost, has_file, has_folder, has_its_folder, is_bare,
    is_free, known_size, list_nodes, list_nodes_within, map_of, may_put_file, may_put_folder,
    move_file, put_node, read_known, set_file_time, take_node,
};
use base_devices::{DataFolder, DeviceError, FolderEntry, ReadableFile};
use std::alloc::{AllocError, Global};
use std::collections::BTreeMap;

/// Why no tree was made of some nodes.
#[derive(Debug, Drop)]
pub enum TreeFault {
    /// A node lies in a folder that isn't among them.
    NoFolder { path: String },
    NoMemory,
}

impl From<AllocError> for TreeFault {
    ghost use Rattle.memory_devices.specs.declared.tree.TreeFault.TheVariants.{NoMemory};

    ghost from_gives = { λ _ e. e ≡ NoMemory };

    fn from(_: AllocError) -> Self {
        TreeFault::NoMemory
    }
}

/// A data folder whose nodes are known. What was done in it is synced at once.
#[derive(Drop)]
pub struct MemDataFolder {
    alloc: Global,
    nodes: BTreeMap<String, MemNode>,
    failing: Failing,
    // the last one first
    opened: Vec<String>,
    ghost rooted: { Rooted (nodes_at nodes) },
}

impl MemDataFolder {
    ghost use Rattle.memory_devices.specs.TreeFault.{Names};

    /// A tree with these nodes, each folder on a path among them; of a path that is given twice the last node counts.
    /// `fail` has the numbers of the calls that are to fail, the first being 0.
    pub fn new(
        alloc: Global,
        nodes: Vec<(String, MemNode)>,
        fail: Vec<u64>,
    ) -> Result<Self, TreeFault>
        ensures nodes { IfOk result (λ t. HasTree nodes.items (⟦<MemDataFolder as DataFolder>⟧.state t)) }
        ensures counts { IfOk result (λ t. t.failing ≡ uncounted fail) }
        ensures opened { IfOk result (λ t. (⟦<MemDataFolder as DataFolder>⟧.state t).opened ≡ []) }
        ensures lost { IfErr result (λ e. Names (tree_at nodes.items) e) }
        ensures rooted { OnOk result (Rooted (tree_at nodes.items)) }
    {
        let nodes = map_of(alloc, nodes)?;
        if let Some(path) = first_lost(&nodes) {
            let path = String::from_str(alloc, path)?;
            return Err(TreeFault::NoFolder { path });
        }
        Ok(MemDataFolder {
            alloc,
            nodes,
            failing: Failing::new(fail),
            opened: Vec::new(alloc),
        })
    }

    /// What is at a path.
    pub fn node(&self, path: &str) -> Option<&MemNode>
        ensures { HasNode path.now (option_map (λ n. node_of n.now) result)
            (⟦<MemDataFolder as DataFolder>⟧.state self.now) }
    {
        self.nodes.get(path)
    }

    /// How often a call failed.
    pub fn faults(&self) -> u64
        ensures { result ≡ (⟦<MemDataFolder as DataFolder>⟧.state self.now).faults }
    {
        self.failing.faults()
    }

    /// How many calls were faulty: an append, a `set_time` or a rename of what is no file, a make, a begin or a rename to a path
    /// whose folder isn't there, a remove of a folder that isn't empty.
    pub fn faulty_calls(&self) -> u64
        ensures { result ≡ (⟦<MemDataFolder as DataFolder>⟧.state self.now).faulty_calls }
    {
        self.failing.faulty_calls()
    }

    /// The place that was opened last, and nothing before the first.
    pub fn place(&self) -> &str
        ensures { result.now ≡ last_opened (⟦<MemDataFolder as DataFolder>⟧.state self.now).opened }
    {
        match self.opened.first() {
            Some(place) => place.as_str(),
            None => "",
        }
    }

    /// The places that were opened, the last one first.
    pub fn opened(&self) -> &[String]
        ensures { map string_bytes result.now ≡ (⟦<MemDataFolder as DataFolder>⟧.state self.now).opened }
    {
        &self.opened
    }
}

impl DataFolder for MemDataFolder {
    ghost state = { λ t. record {
      nodes = Some (nodes_at t.nodes);
      unsynced = λ _. false;
      opened = map string_bytes t.opened.items;
      faulty_calls = t.failing.faulty_calls;
      faults = t.failing.faults;
    } };

    fn open(&mut self, path: &str) -> Result<(), DeviceError>
        ensures opens { Opens result path.now (names_in self.old.opened.items) (names_in self.new.opened.items) }
        ensures same { nodes_at self.new.nodes ≡ nodes_at self.old.nodes }
        ensures fails { FailsWhere (is_to_fail self.old.failing) result }
        ensures counts { self.new.failing ≡ counted self.old.failing }
        ensures cause { HasCause self.old.failing.faults self.new.failing.faults result }
    {
        if self.failing.fails() {
            return Err(DeviceError::Failed);
        }
        let place = String::from_str(self.alloc, path)?;
        self.opened.insert(0, place)?;
        Ok(())
    }

    fn list(&mut self, alloc: Global) -> Result<Vec<FolderEntry>, DeviceError>
        ensures listing { IfOk result (λ seen. ListsNodes (nodes_at self.old.nodes) seen.items) }
        ensures same { nodes_at self.new.nodes ≡ nodes_at self.old.nodes }
        ensures fails { FailsWhere (is_to_fail self.old.failing) result }
        ensures counts { self.new.failing ≡ counted self.old.failing }
        ensures opened { self.new.opened.items ≡ self.old.opened.items }
        ensures cause { HasCause self.old.failing.faults self.new.failing.faults result }
    {
        if self.failing.fails() {
            return Err(DeviceError::Failed);
        }
        Ok(list_nodes(alloc, &self.nodes)?)
    }

    fn list_folder(&mut self, alloc: Global, folder: &str) -> Result<Vec<FolderEntry>, DeviceError>
        ensures listing { IfOk result (λ seen. ListsNodesWithin folder.now (nodes_at self.old.nodes) seen.items) }
        ensures same { nodes_at self.new.nodes ≡ nodes_at self.old.nodes }
        ensures fails { FailsWhere (is_to_fail self.old.failing) result }
        ensures counts { self.new.failing ≡ counted self.old.failing }
        ensures opened { self.new.opened.items ≡ self.old.opened.items }
        ensures cause { HasCause self.old.failing.faults self.new.failing.faults result }
    {
        if self.failing.fails() {
            return Err(DeviceError::Failed);
        }
        Ok(list_nodes_within(alloc, &self.nodes, folder)?)
    }

    fn read(
        &mut self,
        what: &ReadableFile,
        at: u64,
        buf: &mut [u8],
    ) -> Result<Option<usize>, DeviceError>
        ensures bytes { IfOk result (λ n. ReadsKnown (nodes_at self.old.nodes) what.now at buf.old buf.new n) }
        ensures room { IfOk result (λ n. IfSome n (λ n. n ≤ length buf.old)) }
        ensures same { nodes_at self.new.nodes ≡ nodes_at self.old.nodes }
        ensures fails { FailsWhere (is_to_fail self.old.failing) result }
        ensures counts { self.new.failing ≡ counted self.old.failing }
        ensures opened { self.new.opened.items ≡ self.old.opened.items }
        ensures cause { HasCause self.old.failing.faults self.new.failing.faults result }
    {
        if self.failing.fails() {
            return Err(DeviceError::Failed);
        }
        Ok(read_known(self.alloc, &self.nodes, what, at, buf)?)
    }

    fn size(&mut self, what: &ReadableFile) -> Result<Option<u64>, DeviceError>
        ensures size { IfOk result
            (λ n. n ≡ option_map length (known_bytes (nodes_at self.old.nodes) what.now)) }
        ensures same { nodes_at self.new.nodes ≡ nodes_at self.old.nodes }
        ensures fails { FailsWhere (is_to_fail self.old.failing) result }
        ensures counts { self.new.failing ≡ counted self.old.failing }
        ensures opened { self.new.opened.items ≡ self.old.opened.items }
        ensures cause { HasCause self.old.failing.faults self.new.failing.faults result }
    {
        if self.failing.fails() {
            return Err(DeviceError::Failed);
        }
        Ok(known_size(self.alloc, &self.nodes, what)?)
    }

    fn make(&mut self, folder: &str) -> Result<(), DeviceError>
        ensures ok { OnOk result (nodes_at self.new.nodes ≡ with_folder folder.now (nodes_at self.old.nodes)) }
        ensures err { OnErr result (nodes_at self.new.nodes ≡ nodes_at self.old.nodes) }
        ensures fails { FailsUnless (may_make (nodes_at self.old.nodes) folder.now) self.old.failing result }
        ensures counts { self.new.failing ≡ tried_make (nodes_at self.old.nodes) folder.now self.old.failing }
        ensures opened { self.new.opened.items ≡ self.old.opened.items }
        ensures cause { HasCause self.old.failing.faults self.new.failing.faults result }
    {
        if self.failing.fails() {
            return Err(DeviceError::Failed);
        }
        if !has_its_folder(&self.nodes, folder) {
            return Err(self.failing.faulty_call());
        }
        if !may_put_folder(&self.nodes, folder) {
            return Err(self.failing.fault());
        }
        put_node(self.alloc, &mut self.nodes, folder, MemNode::Folder)?;
        Ok(())
    }

    fn begin(&mut self, path: &str) -> Result<(), DeviceError>
        // A file that is begun has time 0.
        ensures ok { OnOk result (nodes_at self.new.nodes ≡ with_empty_file path.now 0 (nodes_at self.old.nodes)) }
        ensures err { OnErr result (nodes_at self.new.nodes ≡ nodes_at self.old.nodes) }
        ensures fails { FailsUnless (may_begin (nodes_at self.old.nodes) path.now) self.old.failing result }
        ensures counts { self.new.failing ≡ tried_begin (nodes_at self.old.nodes) path.now self.old.failing }
        ensures opened { self.new.opened.items ≡ self.old.opened.items }
        ensures cause { HasCause self.old.failing.faults self.new.failing.faults result }
    {
        if self.failing.fails() {
            return Err(DeviceError::Failed);
        }
        if !has_its_folder(&self.nodes, path) {
            return Err(self.failing.faulty_call());
        }
        if !may_put_file(&self.nodes, path) {
            return Err(self.failing.fault());
        }
        let empty = empty_file(self.alloc);
        put_node(self.alloc, &mut self.nodes, path, empty)?;
        Ok(())
    }

    fn begin_new(&mut self, path: &str) -> Result<bool, DeviceError>
        ensures known { IfOk result (λ made. made ≡ is_none (nodes_at self.old.nodes path.now)) }
        // A file that is begun has time 0.
        ensures ok { IfOk result
            (λ made. nodes_at self.new.nodes ≡ begun_if made path.now (nodes_at self.old.nodes)) }
        ensures err { OnErr result (nodes_at self.new.nodes ≡ nodes_at self.old.nodes) }
        ensures fails { FailsUnless (is_placed (nodes_at self.old.nodes) path.now) self.old.failing result }
        ensures counts { self.new.failing ≡ tried (is_placed (nodes_at self.old.nodes) path.now) self.old.failing }
        ensures opened { self.new.opened.items ≡ self.old.opened.items }
        ensures cause { HasCause self.old.failing.faults self.new.failing.faults result }
    {
        if self.failing.fails() {
            return Err(DeviceError::Failed);
        }
        if !has_its_folder(&self.nodes, path) {
            return Err(self.failing.faulty_call());
        }
        if !is_free(&self.nodes, path) {
            return Ok(false);
        }
        let empty = empty_file(self.alloc);
        put_node(self.alloc, &mut self.nodes, path, empty)?;
        Ok(true)
    }

    fn append(&mut self, path: &str, bytes: &[u8]) -> Result<(), DeviceError>
        // The file's time stays.
        ensures ok { OnOk result
            (nodes_at self.new.nodes ≡ with_longer path.now bytes.now (nodes_at self.old.nodes)) }
        ensures err { OnErr result (nodes_at self.new.nodes ≡ nodes_at self.old.nodes) }
        ensures fails { FailsUnless (is_file (nodes_at self.old.nodes path.now)) self.old.failing result }
        ensures counts { self.new.failing ≡ tried (is_file (nodes_at self.old.nodes path.now)) self.old.failing }
        ensures opened { self.new.opened.items ≡ self.old.opened.items }
        ensures cause { HasCause self.old.failing.faults self.new.failing.faults result }
    {
        if self.failing.fails() {
            return Err(DeviceError::Failed);
        }
        if !has_file(&self.nodes, path) {
            return Err(self.failing.faulty_call());
        }
        extend_file(&mut self.nodes, path, bytes)?;
        Ok(())
    }

    fn set_time(&mut self, path: &str, time: u64) -> Result<(), DeviceError>
        ensures ok { OnOk result (nodes_at self.new.nodes ≡ timed_file path.now time (nodes_at self.old.nodes)) }
        ensures err { OnErr result (nodes_at self.new.nodes ≡ nodes_at self.old.nodes) }
        ensures fails { FailsUnless (is_file (nodes_at self.old.nodes path.now)) self.old.failing result }
        ensures counts { self.new.failing ≡ tried (is_file (nodes_at self.old.nodes path.now)) self.old.failing }
        ensures opened { self.new.opened.items ≡ self.old.opened.items }
        ensures cause { HasCause self.old.failing.faults self.new.failing.faults result }
    {
        if self.failing.fails() {
            return Err(DeviceError::Failed);
        }
        if !has_file(&self.nodes, path) {
            return Err(self.failing.faulty_call());
        }
        set_file_time(&mut self.nodes, path, time);
        Ok(())
    }

    fn rename(&mut self, from: &str, to: &str) -> Result<(), DeviceError>
        ensures ok { OnOk result (nodes_at self.new.nodes ≡ moved_node from.now to.now (nodes_at self.old.nodes)) }
        ensures err { OnErr result (nodes_at self.new.nodes ≡ nodes_at self.old.nodes) }
        ensures fails { FailsUnless (may_move (nodes_at self.old.nodes) from.now to.now) self.old.failing result }
        ensures counts { self.new.failing ≡ tried_move (nodes_at self.old.nodes) from.now to.now self.old.failing }
        ensures opened { self.new.opened.items ≡ self.old.opened.items }
        ensures cause { HasCause self.old.failing.faults self.new.failing.faults result }
    {
        if self.failing.fails() {
            return Err(DeviceError::Failed);
        }
        if !has_file(&self.nodes, from) || !has_its_folder(&self.nodes, to) {
            return Err(self.failing.faulty_call());
        }
        if has_folder(&self.nodes, to) {
            return Err(self.failing.fault());
        }
        move_file(self.alloc, &mut self.nodes, from, to)?;
        Ok(())
    }

    fn remove(&mut self, path: &str) -> Result<(), DeviceError>
        ensures ok { OnOk result (nodes_at self.new.nodes ≡ with_node path.now None (nodes_at self.old.nodes)) }
        ensures err { OnErr result (nodes_at self.new.nodes ≡ nodes_at self.old.nodes) }
        ensures fails { FailsWhere (is_to_fail self.old.failing || not (holds_nothing path.now self.old.nodes)) result }
        ensures counts { self.new.failing ≡ tried (holds_nothing path.now self.old.nodes) self.old.failing }
        ensures opened { self.new.opened.items ≡ self.old.opened.items }
        ensures cause { HasCause self.old.failing.faults self.new.failing.faults result }
    {
        if self.failing.fails() {
            return Err(DeviceError::Failed);
        }
        if !is_bare(&self.nodes, path) {
            return Err(self.failing.faulty_call());
        }
        take_node(&mut self.nodes, path);
        Ok(())
    }

    fn sync(&mut self) -> Result<(), DeviceError>
        ensures same { nodes_at self.new.nodes ≡ nodes_at self.old.nodes }
        ensures fails { FailsWhere (is_to_fail self.old.failing) result }
        ensures counts { self.new.failing ≡ counted self.old.failing }
        ensures opened { self.new.opened.items ≡ self.old.opened.items }
        ensures cause { HasCause self.old.failing.faults self.new.failing.faults result }
    {
        if self.failing.fails() {
            return Err(DeviceError::Failed);
        }
        Ok(())
    }

    fn rename_synced(&mut self, from: &str, to: &str) -> Result<(), DeviceError>
        ensures ok { OnOk result (nodes_at self.new.nodes ≡ moved_node from.now to.now (nodes_at self.old.nodes)) }
        ensures err { OnErr result (nodes_at self.new.nodes ≡ nodes_at self.old.nodes) }
        ensures fails { FailsUnless (may_move (nodes_at self.old.nodes) from.now to.now) self.old.failing result }
        ensures counts { self.new.failing ≡ tried_move (nodes_at self.old.nodes) from.now to.now self.old.failing }
        ensures opened { self.new.opened.items ≡ self.old.opened.items }
        ensures cause { HasCause self.old.failing.faults self.new.failing.faults result }
    {
        self.rename(from, to)
    }

    fn remove_synced(&mut self, path: &str) -> Result<(), DeviceError>
        ensures ok { OnOk result (nodes_at self.new.nodes ≡ with_node path.now None (nodes_at self.old.nodes)) }
        ensures err { OnErr result (nodes_at self.new.nodes ≡ nodes_at self.old.nodes) }
        ensures fails { FailsWhere (is_to_fail self.old.failing || not (holds_nothing path.now self.old.nodes)) result }
        ensures counts { self.new.failing ≡ tried (holds_nothing path.now self.old.nodes) self.old.failing }
        ensures opened { self.new.opened.items ≡ self.old.opened.items }
        ensures cause { HasCause self.old.failing.faults self.new.failing.faults result }
    {
        self.remove(path)
    }
}
