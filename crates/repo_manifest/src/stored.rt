// A manifest as a kind of info file.
ghost use Rattle.std.specs.Prelude.{◌≡◌, refl};
ghost use Rattle.std.proofs.Common.{lit<};
ghost use Rattle.base_model.specs.InfoText.{info_text};
ghost use Rattle.base_model.specs.ManifestText.{manifest_limit, manifest_sections, IsManifest, IsManifestText};
ghost use Rattle.base_model.specs.Values.{manifest_of, Manifest as SpecManifest};
ghost use Rattle.repo_manifest.specs.ManifestForm.{IsManifestForm};

use crate::decoder::decode;
use crate::encoder::parts_of;
use base_model::Manifest;
use base_text::NoMemory;
use repo_info::{Info, MemberFault, ReadInfo};
use repo_ini::Part;
use std::alloc::Global;

/// The texts of manifests have at most 256 MiB.
pub(crate) const LIMIT: u64 = 268_435_456;

/// A manifest that is kept in two members.
#[derive(Drop)]
pub struct Stored(pub Manifest);

impl Info for Stored {
    ghost sections = { λ v. manifest_sections (manifest_of v.0) };

    ghost is_valid = { λ v. IsManifest (manifest_of v.0) };

    ghost limit = { manifest_limit };

    #[tactic(auto, using(crate::proofs::ManifestRules::manifest_is_info))]
    fn parts(&self, alloc: Global) -> Result<Vec<Part>, NoMemory> {
        parts_of(alloc, &self.0)
    }
}

impl ReadInfo for Stored {
    ghost Value = { SpecManifest };

    ghost value = { λ v. manifest_of v.0 };

    ghost IsText = { IsManifestText };

    ghost text = { λ m. info_text (manifest_sections m) };

    ghost IsForm = { IsManifestForm };

    fn limit() -> u64 {
        LIMIT
    }

    fn read(alloc: Global, bytes: &[u8]) -> Result<Result<Self, MemberFault>, NoMemory> {
        match decode(alloc, bytes)? {
            Ok(manifest) => Ok(Ok(Stored(manifest))),
            Err(fault) => Ok(Err(fault)),
        }
    }

    ghost one_text = { λ m b h. h.spelled };

    ghost within = { λ m b h. h.within };

    ghost own_text = { λ v. refl };

    ghost small = { lit< tt };
}
