//! What definitions promise by themselves.
ghost use Rattle.std.specs.Prelude.{◌≡◌, false};
ghost use Rattle.snap_content.specs.Tree.{Tree};
ghost use Rattle.snap_assert_serialize.specs.Serialized.{refuses};
ghost use Rattle.snap_assert_serialize.specs.declared.format.SerializationFormat.TheVariants.{Yaml};

/// YAML has a text for each key.
pub const fn yaml_refuses_none()
    ensures { (t : Tree) → refuses Yaml t ≡ false }
{}
