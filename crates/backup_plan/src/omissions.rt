// What a backup leaves out.
ghost use Rattle.std.specs.Prelude.{◌≡◌, codes};
ghost use Rattle.std.specs.List.{list_any};
ghost use Rattle.base_devices.specs.Content.{is_below};
ghost use Rattle.base_model.specs.Paths.{elements};
ghost use Rattle.backup_plan.specs.Omitted.{is_passing, is_cache, is_lock, is_signal, is_label, is_emptied, is_of_top, is_by_name, is_settings_folder, is_omitted};

use base_devices::Node;

fn is_passing(element: &str) -> bool
    ensures { result ≡ is_passing element.now }
{
    element.as_bytes().starts_with(b"pgsql_tmp") || element.as_bytes().ends_with(b".pgbackrest.tmp")
}

fn is_cache(element: &str) -> bool
    ensures { result ≡ is_cache element.now }
{
    element == "pg_internal.init" || element.as_bytes().starts_with(b"pg_internal.init.")
}

fn has_passing(path: &str) -> bool
    ensures { result ≡ list_any is_passing (elements path.now) }
{
    path.split('/').any(|element| is_passing(element))
}

fn has_cache(path: &str) -> bool
    ensures { result ≡ list_any is_cache (elements path.now) }
{
    path.split('/').any(|element| is_cache(element))
}

fn is_lock(path: &str) -> bool
    ensures { result ≡ is_lock path.now }
{
    let bytes = path.as_bytes();
    path == "postmaster.pid"
        || bytes.starts_with(b"postmaster.pid/")
        || path == "postmaster.opts"
        || bytes.starts_with(b"postmaster.opts/")
}

fn is_signal(path: &str) -> bool
    ensures { result ≡ is_signal path.now }
{
    let bytes = path.as_bytes();
    path == "recovery.signal"
        || bytes.starts_with(b"recovery.signal/")
        || path == "standby.signal"
        || bytes.starts_with(b"standby.signal/")
}

fn is_label(path: &str) -> bool
    ensures { result ≡ is_label path.now }
{
    let bytes = path.as_bytes();
    path == "backup_label"
        || bytes.starts_with(b"backup_label/")
        || path == "tablespace_map"
        || bytes.starts_with(b"tablespace_map/")
}

fn is_emptied(online: bool, path: &str) -> bool
    ensures { result ≡ is_emptied online path.now }
{
    let bytes = path.as_bytes();
    bytes.starts_with(b"pg_replslot/")
        || bytes.starts_with(b"pg_dynshmem/")
        || bytes.starts_with(b"pg_notify/")
        || bytes.starts_with(b"pg_serial/")
        || bytes.starts_with(b"pg_snapshots/")
        || bytes.starts_with(b"pg_stat_tmp/")
        || bytes.starts_with(b"pg_subtrans/")
        || (online && bytes.starts_with(b"pg_wal/"))
}

fn is_settings_folder(path: &str, node: &Node) -> bool
    ensures { result ≡ is_settings_folder path.now node.now }
{
    path.as_bytes().starts_with(b"postgresql.auto.conf/")
        || (path == "postgresql.auto.conf" && matches!(node, Node::Folder))
}

fn is_of_top(online: bool, path: &str) -> bool
    ensures { result ≡ is_of_top online path.now }
{
    is_lock(path) || is_signal(path) || (online && is_label(path)) || is_emptied(online, path)
}

fn is_by_name(path: &str, node: &Node) -> bool
    ensures { result ≡ is_by_name path.now node.now }
{
    has_passing(path) || (matches!(node, Node::File { .. }) && has_cache(path))
}

/// Whether the node is left out.
pub(crate) fn is_omitted(online: bool, path: &str, node: &Node) -> bool
    ensures { result ≡ is_omitted online path.now node.now }
{
    is_by_name(path, node) || is_of_top(online, path) || is_settings_folder(path, node)
}
