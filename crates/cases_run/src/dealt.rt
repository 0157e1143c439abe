// Scatters the elements of a nest over the boards by the maps of its words, and gathers them back.
use dealing::dimension::Dimension;
use dealing::maps::maps_over;
use nest::nest::Nest;
use owner_map::BlockCyclic;
use sections::{LayoutRefusal, gather, scatter};

/// A nest with the maps of its words.
#[derive(Drop)]
pub(crate) struct Deal<'a> {
    nest: &'a Nest,
    rows: Vec<BlockCyclic>,
    columns: Vec<BlockCyclic>,
}

impl<'a> Deal<'a> {
    pub(crate) fn new(rt: &HostRuntime, nest: &'a Nest) -> anyhow::Result<Deal<'a>> {
        let rows = maps_over(rt.alloc(), Dimension::Rows, nest)?;
        let columns = maps_over(rt.alloc(), Dimension::Columns, nest)?;
        Ok(Deal {
            nest,
            rows,
            columns,
        })
    }

    /// The sections of the values, and whether both calls went through and gathering gave the values back.
    pub(crate) fn scattered(
        &self,
        rt: &HostRuntime,
        values: &[i32],
    ) -> anyhow::Result<(Vec<i32>, bool)> {
        let mut parts = vec![in rt.alloc(); 0i32; values.len()]?;
        let mut back = vec![in rt.alloc(); 0i32; values.len()]?;
        let went = scatter(self.nest, &self.rows, &self.columns, values, &mut parts)
            .and_then(|()| gather(self.nest, &self.rows, &self.columns, &parts, &mut back))
            .is_ok();
        let is_back = went && back.as_slice() == values;
        Ok((parts, is_back))
    }

    /// How no maps of rows, and how a buffer that is one short, are refused.
    pub(crate) fn refusals(
        &self,
        rt: &HostRuntime,
        values: &[i32],
    ) -> anyhow::Result<(Option<LayoutRefusal>, Option<LayoutRefusal>)> {
        let mut short = vec![in rt.alloc(); 0i32; values.len().saturating_sub(1)]?;
        let by_maps = scatter(
            self.nest,
            &self.rows[..0],
            &self.columns,
            values,
            &mut short,
        )
        .err();
        let by_length = scatter(self.nest, &self.rows, &self.columns, values, &mut short).err();
        Ok((by_maps, by_length))
    }
}
